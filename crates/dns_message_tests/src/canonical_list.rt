//! The canonical list of a message's records: how many records and octets it has, and whether two lists are the same.

use crate::assertions::holds;
use dns_message::{CanonicalList, read_forms};
use std::alloc::Global;

/// The nine names of RFC 4034 section 6.1 as owners of addresses, from the last name to the first. The last octet of an address is the
/// number of its owner's place in that section.
const NINE: &[u8] =
    b"\0\0\x80\0\0\0\0\x09\0\0\0\0\x01\xc8\x01z\x07example\0\0\x01\0\x01\0\0\0\0\0\x04\xc0\0\x02\x09\x01*\x01z\x07example\0\0\x01\0\x01\0\0\0\0\0\x04\xc0\0\x02\x08\x01\x01\x01z\x07example\0\0\x01\0\x01\0\0\0\0\0\x04\xc0\0\x02\x07\x01z\x07example\0\0\x01\0\x01\0\0\0\0\0\x04\xc0\0\x02\x06\x04zABC\x01a\x07EXAMPLE\0\0\x01\0\x01\0\0\0\0\0\x04\xc0\0\x02\x05\x01Z\x01a\x07example\0\0\x01\0\x01\0\0\0\0\0\x04\xc0\0\x02\x04\x08yljkjljk\x01a\x07example\0\0\x01\0\x01\0\0\0\0\0\x04\xc0\0\x02\x03\x01a\x07example\0\0\x01\0\x01\0\0\0\0\0\x04\xc0\0\x02\x02\x07example\0\0\x01\0\x01\0\0\0\0\0\x04\xc0\0\x02\x01";

/// Two addresses of `a.`, 192.0.2.1 and 192.0.2.2, for 60 seconds.
const TWO: &[u8] =
    b"\0\0\x80\0\0\0\0\x02\0\0\0\0\x01a\0\0\x01\0\x01\0\0\0\x3c\0\x04\xc0\0\x02\x01\x01a\0\0\x01\0\x01\0\0\0\x3c\0\x04\xc0\0\x02\x02";

/// The same two of `A.`, in the other order, with a pointer, and one of them twice.
const TWO_AGAIN: &[u8] =
    b"\0\0\x80\0\0\0\0\x02\0\0\0\x01\x01A\0\0\x01\0\x01\0\0\0\x3c\0\x04\xc0\0\x02\x02\xc0\x0c\0\x01\0\x01\0\0\0\x3c\0\x04\xc0\0\x02\x01\xc0\x0c\0\x01\0\x01\0\0\x0e\x10\0\x04\xc0\0\x02\x02";

/// The first of them alone.
const FIRST: &[u8] =
    b"\0\0\x80\0\0\0\0\x01\0\0\0\0\x01a\0\0\x01\0\x01\0\0\0\x3c\0\x04\xc0\0\x02\x01";

/// The first of them, for 61 seconds.
const FIRST_FOR_LONGER: &[u8] =
    b"\0\0\x80\0\0\0\0\x01\0\0\0\0\x01a\0\0\x01\0\x01\0\0\0\x3d\0\x04\xc0\0\x02\x01";

/// No records.
const NONE: &[u8] = b"\0\0\x80\0\0\0\0\0\0\0\0\0";

/// Messages, and of their lists the number of records, the number of their octets, and the last octet of each record's data.
const LISTS: [(&str, &[u8], usize, usize, &[u8]); 5] = [
    (
        "nine owners",
        NINE,
        9,
        245,
        b"\x01\x02\x03\x04\x05\x06\x07\x08\x09",
    ),
    ("two addresses", TWO, 2, 34, b"\x01\x02"),
    ("three records", TWO_AGAIN, 2, 34, b"\x01\x02"),
    ("one address", FIRST, 1, 17, b"\x01"),
    ("no records", NONE, 0, 0, b""),
];

/// Pairs of messages, and whether their lists are the same.
const PAIRS: [(&str, &[u8], &[u8], bool); 6] = [
    ("itself", NINE, NINE, true),
    ("another order and case", TWO, TWO_AGAIN, true),
    ("one more", FIRST, TWO, false),
    ("one fewer", TWO, FIRST, false),
    ("another TTL", FIRST, FIRST_FOR_LONGER, false),
    ("no records", NONE, FIRST, false),
];

/// Whether the data of the records end in these octets, one by one.
fn end_in(list: &CanonicalList<'_>, ends: &[u8]) -> bool {
    for (form, end) in list.iter().zip(ends) {
        if form.data().last() != Some(end) {
            return false;
        }
    }
    list.len() == ends.len()
}

/// Whether the list of a message has so many records and octets, and data that end so.
fn lists(alloc: Global, message: &[u8], records: usize, octets: usize, ends: &[u8]) -> bool {
    let Ok(forms) = read_forms(alloc, message) else {
        return false;
    };
    let Ok(list) = forms.collapsed(alloc) else {
        return false;
    };
    let counted = list.forms().len() == records && list.octet_count() == octets;
    counted && list.is_empty() == ends.is_empty() && end_in(&list, ends)
}

/// Whether two lists are the same. Each borrows forms of its own.
fn are_same(list: &CanonicalList<'_>, other: &CanonicalList<'_>) -> bool {
    *list == *other
}

/// Whether the lists of two messages are the same; none if a message is malformed.
fn same(alloc: Global, first: &[u8], second: &[u8]) -> Option<bool> {
    let Ok(forms) = read_forms(alloc, first) else {
        return None;
    };
    let Ok(others) = read_forms(alloc, second) else {
        return None;
    };
    let Ok(list) = forms.collapsed(alloc) else {
        return None;
    };
    let Ok(other) = others.collapsed(alloc) else {
        return None;
    };
    Some(are_same(&list, &other))
}

#[test]
fn lists_have_records_in_order(rt: HostRuntime) {
    for (what, message, records, octets, ends) in LISTS {
        let found = lists(rt.alloc(), message, records, octets, ends);
        holds(&rt, found, what);
    }
}

#[test]
fn lists_of_the_same_octets_are_the_same(rt: HostRuntime) {
    for (what, first, second, wanted) in PAIRS {
        let found = same(rt.alloc(), first, second);
        holds(&rt, found == Some(wanted), what);
    }
}
