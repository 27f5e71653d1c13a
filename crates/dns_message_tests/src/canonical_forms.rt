//! Canonical forms of a message's records, and their order.

use crate::assertions::holds;
use dns_message::{CanonicalForms, CanonicalRecord, MessageParser, collapse, read_forms};
use std::alloc::Global;

/// Four answers: an address of `A.` for 60 seconds, the same of `a.` for 59 and for 61, and another address.
const ADDRESSES: &[u8] =
    b"\x12\x34\x81\x80\0\0\0\x04\0\0\0\0\x01A\0\0\x01\0\x01\0\0\0\x3c\0\x04\xc0\0\x02\x01\x01a\0\0\x01\0\x01\0\0\0\x3b\0\x04\xc0\0\x02\x01\x01a\0\0\x01\0\x01\0\0\0\x3d\0\x04\xc0\0\x02\x01\x01a\0\0\x01\0\x01\0\0\0\x3b\0\x04\xc0\0\x02\x02";

/// Three answers: an address of `a.` for 60 seconds, twice, and for 59.
const THREE: &[u8] =
    b"\x12\x34\x81\x80\0\0\0\x03\0\0\0\0\x01a\0\0\x01\0\x01\0\0\0\x3c\0\x04\xc0\0\x02\x01\x01a\0\0\x01\0\x01\0\0\0\x3c\0\x04\xc0\0\x02\x01\x01a\0\0\x01\0\x01\0\0\0\x3b\0\x04\xc0\0\x02\x01";

/// The canonical octets of the first address, for 59 seconds.
const LEAST: &[u8] = b"\x01a\0\0\x01\0\x01\0\0\0\x3b\0\x04\xc0\0\x02\x01";

/// The message of the most records: 5,956 of 11 octets, one of each class from 0 on.
fn most_records() -> [u8; 65_528] {
    let mut message = [0; 65_528];
    message[6] = 0x17;
    message[7] = 0x44;
    for index in 0..5_956 {
        message[13 + 11 * index] = 0xff;
        message[15 + 11 * index] = (index / 256) as u8;
        message[16 + 11 * index] = (index % 256) as u8;
    }
    message
}

/// How many of the forms are left, if those of alike records count once, and whether the first has these octets.
fn first_left(alloc: Global, forms: &CanonicalForms, wanted: &[u8]) -> Option<(usize, bool)> {
    match forms.collapsed(alloc) {
        Ok(order) => match order.forms().first() {
            Some(found) => Some((order.len(), found.octets() == wanted)),
            None => None,
        },
        Err(_) => None,
    }
}

/// The same of the forms of a message's records, and how many there are before.
fn collapses(alloc: Global, message: &[u8], wanted: &[u8]) -> Option<(usize, usize, bool)> {
    match read_forms(alloc, message) {
        Ok(forms) => match first_left(alloc, &forms, wanted) {
            Some((left, is_wanted)) => Some((forms.len(), left, is_wanted)),
            None => None,
        },
        Err(_) => None,
    }
}

#[test]
fn alike_forms_collapse_to_the_least_ttl(rt: HostRuntime) {
    let found = collapses(rt.alloc(), ADDRESSES, LEAST);
    holds(&rt, found == Some((4, 2, true)), "four addresses");
    let first = b"\0\xff\0\0\0\0\0\0\0\0\0";
    let found = collapses(rt.alloc(), &most_records(), first);
    holds(
        &rt,
        found == Some((5_956, 5_956, true)),
        "all classes differ",
    );
}

/// The next item, as a record.
fn next_record<'a>(parser: &mut MessageParser<'a>) -> Option<CanonicalRecord<'a>> {
    match parser.next_item() {
        Some((_, Ok(item))) => CanonicalRecord::of(item),
        _ => None,
    }
}

/// The records of a message up to the first item that is none.
fn first_records(alloc: Global, message: &[u8]) -> Option<Vec<CanonicalRecord<'_>>> {
    let Ok(mut parser) = MessageParser::new(message) else {
        return None;
    };
    let mut records = Vec::new(alloc);
    for _ in 0..6_000 {
        let Some(found) = next_record(&mut parser) else {
            break;
        };
        if records.push(found).is_err() {
            return None;
        }
    }
    Some(records)
}

/// How many records of a message are left, if alike ones count once.
fn count_left(alloc: Global, message: &[u8]) -> Option<usize> {
    let Some(records) = first_records(alloc, message) else {
        return None;
    };
    match collapse(alloc, records) {
        Ok(unchanged) => Some(unchanged.len()),
        Err(_) => None,
    }
}

#[test]
fn alike_records_collapse(rt: HostRuntime) {
    let four = count_left(rt.alloc(), ADDRESSES);
    holds(&rt, four == Some(2), "four addresses");
    let three = count_left(rt.alloc(), THREE);
    holds(&rt, three == Some(1), "duplicates-once");
    let most = count_left(rt.alloc(), &most_records());
    holds(&rt, most == Some(5_956), "all classes differ");
}
