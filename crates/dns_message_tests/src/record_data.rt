//! Record data of each type, read under the number of the type and written again.

use crate::rdata_by_type::{malformed_rdata, other_rdata, rdata};
use crate::written::{writes, writes_canonical};
use dns_name::Name;
use dns_rdata::RecordData;
use dns_record::{ParseRecordDataBytes, RType};

/// Record data with names that are borrowed.
pub(crate) type Data<'a> = RecordData<'a, Name<'a>>;

/// The data of the type with this number that the octets are.
pub(crate) fn read(number: u16, octets: &[u8]) -> Option<Data<'_>> {
    Data::parse_record_data_bytes(octets, RType::from(number)).ok()
}

/// Whether the data are proper, have this type, and are written as these octets and in canonical form as those.
fn is_written(number: u16, octets: &[u8], canonical: &[u8]) -> bool {
    match read(number, octets) {
        Some(data) => {
            data.is_proper()
                && u16::from(data.rtype()) == number
                && writes(&data, octets)
                && writes_canonical(&data, canonical)
        }
        None => false,
    }
}

#[test]
fn each_type_is_read_and_written(rt: HostRuntime) {
    for (number, octets, canonical) in rdata() {
        assert!(rt; is_written(*number, octets, canonical), "{number}");
    }
}

#[test]
fn other_data_are_read_and_written(rt: HostRuntime) {
    for (number, octets, canonical) in other_rdata() {
        assert!(rt; is_written(*number, octets, canonical), "{number}");
    }
}

/// Whether the octets are no data of the type.
fn is_refused(number: u16, octets: &[u8]) -> bool {
    read(number, octets).is_none()
}

/// Whether the octets without the last one are no data of the type.
fn is_refused_cut(number: u16, octets: &[u8]) -> bool {
    match octets.split_last() {
        Some((_, start)) => is_refused(number, start),
        None => false,
    }
}

/// Whether the last field of the type takes all octets that remain.
fn ends_in_rest(number: u16) -> bool {
    matches!(number, 43 | 46 | 48 | 59 | 60 | 63 | 65_280)
}

#[test]
fn data_an_octet_short_are_refused(rt: HostRuntime) {
    for (number, octets, _) in rdata() {
        let is_refused = is_refused_cut(*number, octets);
        assert!(rt; is_refused != ends_in_rest(*number), "{number}");
    }
}

#[test]
fn malformed_data_are_refused(rt: HostRuntime) {
    for (number, octets) in malformed_rdata() {
        assert!(rt; is_refused(*number, octets), "{number}");
    }
}
