//! EDNS records: read, written, and in the form of a record.
//!
//! dnspython 2.3.0 wrote the octets, in a query with a cookie and in an answer with the response code 16 and an extended error. Its
//! `ednsflags` for the answer, 16,875,520, are the number in its time to live.

use crate::assertions::holds;
use crate::record_data::Data;
use crate::written::writes;
use dns_edns::Opt;
use dns_name::NameBuf;
use dns_rdata::EdnsRecord;
use dns_record::Record;
use dns_wire::{AsBytes, ParseBytes};

/// A query with a cookie.
const QUERY: &[u8] =
    b"\0\0\x29\x04\xd0\0\0\x80\0\0\x0c\0\x0a\0\x08\x24\x64\xc4\xab\xcf\x10\xc9\x57";

/// An answer with an extended error.
const ANSWER: &[u8] = b"\0\0\x29\x10\0\x01\x01\x80\0\0\x07\0\x0f\0\x03\0\0A";

/// An EDNS record with options.
type Edns<'a> = EdnsRecord<Opt<'a>>;

/// The payload, the upper bits of the response code, the version and the flags of the EDNS record that the octets are, if it
/// has these options.
fn fields(octets: &[u8], options: &[u8]) -> Option<(u16, u8, u8, u16)> {
    match Edns::parse_bytes(octets) {
        Ok(edns) if edns.content.inner().as_bytes() == options => Some((
            edns.max_udp_payload.get(),
            edns.ext_rcode,
            edns.version,
            edns.flags.bits(),
        )),
        _ => None,
    }
}

/// Whether the record is written as it was read.
fn is_written(octets: &[u8]) -> bool {
    match Edns::parse_bytes(octets) {
        Ok(edns) => writes(&edns, octets),
        Err(_) => false,
    }
}

/// The type, the class and the time to live of the record that an EDNS record is.
fn form_fields(octets: &[u8]) -> Option<(u16, u16, u32)> {
    match Edns::parse_bytes(octets) {
        Ok(edns) => {
            let form = Record::<NameBuf, Data<'_>>::from(edns);
            let rclass = form.rclass.code.get();
            Some((u16::from(form.rtype), rclass, form.ttl.as_secs()))
        }
        Err(_) => None,
    }
}

#[test]
fn fields_and_options_are_read_and_written(rt: HostRuntime) {
    let answer = fields(ANSWER, b"\0\x0f\0\x03\0\0A");
    holds(&rt, answer == Some((4096, 1, 1, 0x8000)), "the answer");
    let query = fields(QUERY, b"\0\x0a\0\x08\x24\x64\xc4\xab\xcf\x10\xc9\x57");
    holds(&rt, query == Some((1232, 0, 0, 0x8000)), "the query");
    holds(&rt, is_written(ANSWER), "the answer, written");
    holds(&rt, is_written(QUERY), "the query, written");
    let form = form_fields(ANSWER);
    holds(&rt, form == Some((41, 4096, 16_875_520)), "a record");
}

/// The payload, if the record that the octets are is an EDNS record.
fn payload_of_form(octets: &[u8]) -> Option<u16> {
    match Record::<NameBuf, Data<'_>>::parse_bytes(octets) {
        Ok(form) => match Edns::try_from(form) {
            Ok(edns) => Some(edns.max_udp_payload.get()),
            Err(_) => None,
        },
        Err(_) => None,
    }
}

/// Only a record whose owner is the root is an EDNS record (RFC 6891 section 6.1.2).
#[test]
fn records_of_the_root_are_edns_records(rt: HostRuntime) {
    let root = payload_of_form(ANSWER);
    holds(&rt, root == Some(4096), "the root");
    let other = payload_of_form(b"\x01a\0\0\x29\x10\0\x01\x01\x80\0\0\0");
    holds(&rt, other.is_none(), "another owner");
}

/// Whether the octets are no EDNS record.
fn is_refused(octets: &[u8]) -> bool {
    Edns::parse_bytes(octets).is_err()
}

#[test]
fn other_records_are_refused(rt: HostRuntime) {
    let cases: [(&str, &[u8]); 6] = [
        ("an owner", b"\x01a\0\0\x29\x10\0\x01\x01\x80\0\0\0"),
        ("an address", b"\0\0\x01\x10\0\x01\x01\x80\0\0\0"),
        ("a pointer", b"\xc0\x0c\0\x29\x10\0\x01\x01\x80\0\0\0"),
        ("no options", b"\0\0\x29\x10\0\x01\x01\x80\0\0\x01."),
        ("cut in its fields", b"\0\0\x29\x10\0\x01\x01\x80\0"),
        (
            "cut in its options",
            b"\0\0\x29\x10\0\x01\x01\x80\0\0\x07\0\x0f\0\x03\0\0",
        ),
    ];
    for (name, octets) in cases {
        assert!(rt; is_refused(octets), "{name}");
    }
}
