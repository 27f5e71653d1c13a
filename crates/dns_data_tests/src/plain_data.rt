//! The fields of HINFO, SRV and TXT data, whose octets `to_wire` of dnspython 2.3.0 wrote, and the canonical order of SRV
//! data.

use crate::assertions::holds;
use dns_plain::{HInfo, Srv, Txt};
use dns_record::CanonicalRecordData;
use dns_wire::ParseBytes;
use std::cmp::Ordering;

/// "VAX-11/780" "Unix"
const HOST: &[u8] = b"\x0aVAX-11/780\x04Unix";

/// "Some Text" "" "B"
const TEXTS: &[u8] = b"\x09Some Text\0\x01B";

/// 10 60 5060 Big.Example.COM.
const SERVICE: &[u8] = b"\0\x0a\0\x3c\x13\xc4\x03Big\x07Example\x03COM\0";

/// Whether HINFO data have this CPU and this operating system.
fn is_host(octets: &[u8], cpu: &[u8], os: &[u8]) -> bool {
    match HInfo::parse_bytes(octets) {
        Ok(data) => data.cpu.octets() == cpu && data.os.octets() == os,
        Err(_) => false,
    }
}

/// The priority, the weight and the port of SRV data with this host.
fn numbers_of_service(octets: &[u8], name: &[u8]) -> Option<(u16, u16, u16)> {
    match Srv::parse_bytes(octets) {
        Ok(data) if data.name.as_bytes() == name => {
            Some((data.priority.get(), data.weight.get(), data.port.get()))
        }
        _ => None,
    }
}

/// Whether the three strings of TXT data come, and then none.
fn goes_over(octets: &[u8], wanted: [&[u8]; 3]) -> bool {
    let Ok(texts) = Txt::parse_bytes(octets) else {
        return false;
    };
    let mut strings = texts.iter();
    for string in wanted {
        match strings.next() {
            Some(found) if found.octets() == string => {}
            _ => return false,
        }
    }
    strings.next().is_none()
}

#[test]
fn data_have_their_fields(rt: HostRuntime) {
    let name = b"\x03Big\x07Example\x03COM\0";
    let numbers = numbers_of_service(SERVICE, name);
    holds(&rt, numbers == Some((10, 60, 5060)), "SRV");
    holds(&rt, is_host(HOST, b"VAX-11/780", b"Unix"), "HINFO");
    holds(&rt, goes_over(TEXTS, [b"Some Text", b"", b"B"]), "TXT");
}

/// How SRV data compare in canonical order.
fn order_of_services(one: &[u8], other: &[u8]) -> Option<Ordering> {
    match (Srv::parse_bytes(one), Srv::parse_bytes(other)) {
        (Ok(one), Ok(other)) => Some(one.cmp_canonical(&other)),
        _ => None,
    }
}

/// The hosts `b.a.` and `a.b.`: in label order the first would come before the second.
#[test]
fn targets_are_compared_by_their_octets(rt: HostRuntime) {
    let order = order_of_services(
        b"\0\x01\0\x02\0\x03\x01b\x01a\0",
        b"\0\x01\0\x02\0\x03\x01a\x01b\0",
    );
    holds(&rt, order == Some(Ordering::Greater), "srv-order");
}
