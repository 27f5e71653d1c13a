//! Record data in memory that they own.

use crate::assertions::holds;
use crate::record_data::Data;
use dns_boxed::{BoxError, BoxedRecordData};
use dns_name::Name;
use dns_nsec::{Nsec, TypeBitmaps};
use dns_rdata::UnknownRecordData;
use dns_record::RType;
use dns_wire::ParseBytes;
use std::alloc::Global;

/// The octets in a box, under the number of a type.
pub(crate) fn boxed(alloc: Global, number: u16, octets: &[u8]) -> Option<BoxedRecordData> {
    BoxedRecordData::parse(alloc, octets, RType::from(number)).ok()
}

/// Whether a copy of the boxed octets has their type and the same octets.
fn is_copied(alloc: Global, number: u16, octets: &[u8]) -> bool {
    match boxed(alloc, number, octets) {
        Some(data) => match data.try_clone() {
            Ok(copy) => u16::from(copy.rtype()) == number && copy.bytes() == octets,
            Err(_) => false,
        },
        None => false,
    }
}

/// Whether unknown octets under the number of a type are boxed as data of this type.
fn is_made(alloc: Global, number: u16, octets: &[u8]) -> bool {
    let unknown = Data::Unknown(RType::from(number), UnknownRecordData { octets });
    match BoxedRecordData::make(alloc, &unknown) {
        Ok(data) => u16::from(data.rtype()) == number && data.bytes() == octets,
        Err(_) => false,
    }
}

#[test]
fn octets_are_boxed_under_a_type(rt: HostRuntime) {
    let address = is_copied(rt.alloc(), 1, b"\xc0\0\x02\x01");
    holds(&rt, address, "boxed-data: an address and its copy");
    let most = is_copied(rt.alloc(), 65_280, &[7; 65_535]);
    holds(&rt, most, "the most octets");
    let made = is_made(rt.alloc(), 1, b"\xc0\0\x02\x01");
    holds(&rt, made, "boxed-data: an address that is made");
}

/// Why the octets are not boxed under the number of a type.
fn error_of(alloc: Global, number: u16, octets: &[u8]) -> Option<BoxError> {
    BoxedRecordData::parse(alloc, octets, RType::from(number)).err()
}

/// Why NSEC data whose bitmap has no window are not boxed.
fn error_without_window(alloc: Global) -> Option<BoxError> {
    match TypeBitmaps::parse_bytes(b"") {
        Ok(types) => {
            let data = Data::Nsec(Nsec::new(Name::root(), types));
            BoxedRecordData::make(alloc, &data).err()
        }
        Err(_) => None,
    }
}

/// One octet more than data may have.
const TOO_LONG: &[u8] = &[7; 65_536];

#[test]
fn octets_that_are_no_data_are_refused(rt: HostRuntime) {
    let error = error_of(rt.alloc(), 1, b"\xc0\0\x02");
    let is_unreadable = error == Some(BoxError::Unreadable);
    holds(&rt, is_unreadable, "boxed-data: three octets");
    let error = error_of(rt.alloc(), 59, b"\0\0\0");
    let is_unreadable = error == Some(BoxError::Unreadable);
    holds(&rt, is_unreadable, "boxed-data: three octets of CDS");
    let error = error_of(rt.alloc(), 65_280, TOO_LONG);
    let is_too_long = error == Some(BoxError::TooLong);
    holds(&rt, is_too_long, "boxed-data: 65,536 octets");
    let error = error_without_window(rt.alloc());
    let is_unreadable = error == Some(BoxError::Unreadable);
    holds(&rt, is_unreadable, "boxed-data: no window");
}
