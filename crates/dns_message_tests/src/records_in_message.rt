//! Records of each type in a message, where names are shared.

use crate::assertions::holds;
use crate::boxed_record_data::boxed;
use crate::message_builder::is_pushed;
use crate::rdata_by_type::rdata;
use crate::written::writes_canonical;
use dns_basic::Mx;
use dns_boxed::old_new_box;
use dns_message::{HeaderFlags, MessageBuilder};
use dns_name::{Name, NameBuf};
use dns_num::U16;
use dns_rdata::RecordData;
use dns_record::{RClass, Record, TTL};
use dns_wire::{BuildInMessage, NameCompressor, ParseBytes, SplitMessageBytes};
use std::alloc::Global;

/// The owner of the records.
const OWNER: &[u8] = b"\x04HOST\x07example\0";

/// A record of each type for this owner: `to_wire` of dnspython 2.3.0 wrote the names, with one table of names for the owners
/// and for the names in NS, CNAME, SOA, PTR, MX and RP data, and without one for all others. It reads
/// them as the same records, except OPT, which it takes nowhere but among additional records.
const CONTENTS: &[u8] =
    b"\x04HOST\x07example\0\0\x01\0\x01\0\0\0<\0\x04\xc0\0\x02A\xc0\x0c\0\x02\0\x01\0\0\0<\0\x11\x03Ns1\
    \x07Example\x03COM\0\xc0\x0c\0\x05\0\x01\0\0\0<\0\x08\x05Alias\xc0\x11\xc0\x0c\0\x06\0\x01\0\0\0<\0(\
    \x03Ns1\xc0\x11\x0bHost-Master\xc0\x11x\xa3\xf1u\0\0\x1c \0\0\x0e\x10\0\x12u\0\0\0\x0e\x10\xc0\x0c\0\
    \x0c\0\x01\0\0\0<\0\x02\xc0\x0c\xc0\x0c\0\x0d\0\x01\0\0\0<\0\x10\x0aVAX-11/780\x04Unix\xc0\x0c\0\x0f\
    \0\x01\0\0\0<\0\x09\0\x0a\x04Mail\xc0\x11\xc0\x0c\0\x10\0\x01\0\0\0<\0\x0d\x09Some Text\0\x01B\xc0\
    \x0c\0\x11\0\x01\0\0\0<\0\x0f\x05Admin\xc0\x11\x04Info\xc0\x11\xc0\x0c\0\x1c\0\x01\0\0\0<\0\x10 \x01\
    \x0d\xb8\0\0\0\0\0\0\0\0\0\0\0A\xc0\x0c\0!\0\x01\0\0\0<\0\x17\0\x0a\0<\x13\xc4\x03Big\x07Example\x03\
    COM\0\xc0\x0c\0'\0\x01\0\0\0<\0\x11\x07Frobozz\x07Example\0\xc0\x0c\0)\0\x01\0\0\0<\0\x13\0\x0a\0\
    \x08$d\xc4\xab\xcf\x10\xc9W\0\x0f\0\x03\0\0A\xc0\x0c\0+\0\x01\0\0\0<\0\x18\xecE\x05\x01+\xb1\x83\xaf\
    _\"X\x81y\xa5;\x0a\x98c\x1f\xad\x1a)!\x18\xc0\x0c\0.\0\x01\0\0\0<\0\"\0\x01\x05\x03\0\x01Q\x80>|\x9d\
    \xd7>U\x10\xd7\x0aR\x07Example\x03COM\0\x01\x02\x03\xc0\x0c\0/\0\x01\0\0\0<\07\x04Host\x07Example\
    \x03COM\0\0\x06@\x01\0\0\0\x03\x04\x1b\0\0\0\0\0\0\0\0\0\0\0\0\0\0\0\0\0\0\0\0\0\0\0\0\0\0 \xc0\x0c\
    \00\0\x01\0\0\0<\0\x10\x01\0\x03\x05\x01\x03\xd2*l\xa7\x7f5\xb8\x93 o\xc0\x0c\02\0\x01\0\0\0<\0&\x01\
    \x01\0\x0c\x04\xaa\xbb\xcc\xdd\x14\x17N\xb2@\x9f\xe2\x8b\xcbH\x87\xa1\x83o\x95\x7f\x0a\x84%\xe2{\0\
    \x06@\0\0\0\0\x02\xc0\x0c\03\0\x01\0\0\0<\0\x09\x01\0\0\x0c\x04\xaa\xbb\xcc\xdd\xc0\x0c\0;\0\x01\0\0\
    \0<\0$\xeey\x0d\x02Z\x98N[L\x8b~\x9b\xa2W\xe1\xbbl\xa4\xda\x9a^F\xba\x97\xb9\xa5\x9d\xb2\xa2\x88\
    \x86\xebg\x82\x11\xfd\xc0\x0c\0<\0\x01\0\0\0<\0$\x01\x01\x03\x0f\xf8\xb7\x0c\x0e\x83\xf9\xa4@f\xbc\
    \xafx\xd4m\xba\0L.\xac\x83\xd8N\x88$i\x80'F\x10\xb3\x0dx\xc0\x0c\0?\0\x01\0\0\
    \0<\06xH\xb7\x8c\x01\x01\xfe\xbe=L\xe2\xec/\xfaK\xa9\x9dF\xcdi\xd6\xd2\x97\x11\xe5R\x17\x05{\xee~\
    \xb1\xa7\xb6A\xa4{\xa7\xfe\xd2\xdd[\x97\xaeI\x9f\xaf\xa4\xf2,k\xd6G\xde\xc0\x0c\xff\0\0\x01\0\0\0<\0\
    \x03\x01\x02\xff";

/// The places of that table, counted from the end of the header.
const PLACES: [u16; 11] = [0, 5, 40, 44, 52, 69, 89, 95, 185, 229, 237];

/// Whether a record with boxed data of this type is pushed.
fn is_box_pushed(
    alloc: Global,
    builder: &mut MessageBuilder<'_>,
    number: u16,
    octets: &[u8],
) -> bool {
    match (Name::parse_bytes(OWNER), boxed(alloc, number, octets)) {
        (Ok(owner), Some(data)) => {
            let found = old_new_box(owner, RClass::IN, TTL::from(60), data);
            builder.push_answer(&found).is_ok()
        }
        _ => false,
    }
}

/// Whether a record of each type is pushed, with boxed data or with others.
fn are_pushed(alloc: Global, builder: &mut MessageBuilder<'_>, is_boxed: bool) -> bool {
    for (number, octets, _) in rdata() {
        let is_next = if is_boxed {
            is_box_pushed(alloc, builder, *number, octets)
        } else {
            is_pushed(builder, ('a', OWNER, *number, 60, octets))
        };
        if !is_next {
            return false;
        }
    }
    true
}

/// Whether the records are written as the contents, and their names are known at these places then.
fn are_written(alloc: Global, is_boxed: bool) -> bool {
    let mut buffer = [0; 804];
    let mut names = NameCompressor::new();
    let is_whole = {
        let id = U16::new(0);
        let mut builder = MessageBuilder::new(&mut buffer, &mut names, id, HeaderFlags::default());
        are_pushed(alloc, &mut builder, is_boxed) && builder.message().contents() == CONTENTS
    };
    is_whole && names.places() == PLACES.as_slice()
}

#[test]
fn records_of_each_type_share_names(rt: HostRuntime) {
    holds(&rt, are_written(rt.alloc(), false), "data");
    holds(&rt, are_written(rt.alloc(), true), "boxed data");
}

/// Whether `b.` and then MX data with the exchange `a.B.` are written as these octets, and which offsets names can then point to.
fn writes_exchange(wanted: &[u8], places: &[u16]) -> bool {
    let (Ok(zone), Ok(exchange)) = (
        Name::parse_bytes(b"\x01b\0"),
        Name::parse_bytes(b"\x01a\x01B\0"),
    ) else {
        return false;
    };
    let preference = U16::new(1);
    let data = Mx {
        preference,
        exchange,
    };
    let mut contents = [0; 9];
    let mut names = NameCompressor::new();
    let end = (zone, data).build_in_message(&mut contents, 0, &mut names);
    end == Ok(9) && contents.as_slice() == wanted && names.places() == places
}

#[test]
fn an_exchange_shares_labels_written_before(rt: HostRuntime) {
    let is_written = writes_exchange(b"\x01b\0\0\x01\x01a\xc0\x0c", &[0, 5]);
    holds(&rt, is_written, "exchange-below-a-name");
}

/// A record with names that are owned.
type OwnedRecord<'a> = Record<NameBuf, RecordData<'a, NameBuf>>;

/// The record at this place of the contents, and where it ends.
fn record_at(place: usize) -> Option<(OwnedRecord<'static>, usize)> {
    OwnedRecord::split_message_bytes(CONTENTS, place).ok()
}

/// Where the record ends that begins at the place, and has this type and data with these canonical octets.
fn end_of_record(place: usize, number: u16, canonical: &[u8]) -> Option<usize> {
    match record_at(place) {
        Some((found, end)) => {
            let is_same = u16::from(found.rtype) == number
                && found.rname.as_name().as_bytes() == OWNER
                && writes_canonical(&found.rdata, canonical);
            if is_same { Some(end) } else { None }
        }
        None => None,
    }
}

#[test]
fn shared_names_are_read(rt: HostRuntime) {
    let mut place = 0;
    for (number, _, canonical) in rdata() {
        let end = end_of_record(place, *number, canonical);
        assert!(rt; end.is_some(), "{number}");
        place = end.unwrap_or(0);
    }
    holds(&rt, place == 792, "the end");
}
