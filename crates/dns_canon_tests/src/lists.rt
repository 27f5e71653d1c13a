//! Canonical lists of messages, as values.

use dns_canon::{
    CanonError, canonicalise, expected_statuses_in_words, parted_texts, sameness_in_words,
    words_of_commands,
};
use std::alloc::Global;

/// A message with an A record of `A.`.
const ADDRESS: &[u8] =
    b"\x12\x34\x81\x80\0\0\0\x01\0\0\0\0\x01A\0\0\x01\0\x01\0\0\0\x3c\0\x04\xc0\0\x02\x01";

/// A message with a record of type 65280 at the root without data.
const PRIVATE: &[u8] = b"\x12\x34\x81\x80\0\0\0\x01\0\0\0\0\0\xff\0\0\x01\0\0\0\0\0\0";

/// How many records the list of a message has, and whether it is empty.
fn length_of(alloc: Global, message: &[u8]) -> Option<(usize, bool)> {
    match canonicalise(alloc, message) {
        Ok(list) => Some((list.len(), list.is_empty())),
        Err(_) => None,
    }
}

/// Whether the list of a message has these octets at an index.
fn has_at(alloc: Global, message: &[u8], index: usize, octets: Option<&[u8]>) -> bool {
    match canonicalise(alloc, message) {
        Ok(list) => list.get(index) == octets,
        Err(_) => false,
    }
}

/// Why a message has no list.
fn refusal_of(alloc: Global, message: &[u8]) -> Option<CanonError> {
    match canonicalise(alloc, message) {
        Ok(_) => None,
        Err(error) => Some(error),
    }
}

/// Whether two messages have equal lists.
fn are_equal(alloc: Global, one: &[u8], other: &[u8]) -> Option<bool> {
    match (canonicalise(alloc, one), canonicalise(alloc, other)) {
        (Ok(one), Ok(other)) => Some(one == other),
        _ => None,
    }
}

#[test]
fn lists_canonical_octets(rt: HostRuntime) {
    let octets = b"\x01a\0\0\x01\0\x01\0\0\0\x3c\0\x04\xc0\0\x02\x01".as_slice();
    assert!(rt;
        length_of(rt.alloc(), ADDRESS) == Some((1, false)),
        "one record"
    );
    assert!(rt;
        length_of(rt.alloc(), &[0; 12]) == Some((0, true)),
        "no record"
    );
    assert!(rt; has_at(rt.alloc(), ADDRESS, 0, Some(octets)), "the record");
    assert!(rt; has_at(rt.alloc(), ADDRESS, 1, None), "after the last");
}

/// The message of the most records: 5,956 of 11 octets, one of each class from 0 on.
fn most_records() -> [u8; 65_528] {
    let mut message = [0; 65_528];
    message[6] = 0x17;
    message[7] = 0x44;
    for index in 0..5_956 {
        message[13 + 11 * index] = 0xff;
        message[15 + 11 * index] = (index / 256) as u8;
        message[16 + 11 * index] = (index % 256) as u8;
    }
    message
}

#[test]
fn lists_the_most_records(rt: HostRuntime) {
    let message = most_records();
    let last = b"\0\xff\0\x17\x43\0\0\0\0\0\0".as_slice();
    assert!(rt;
        length_of(rt.alloc(), &message) == Some((5_956, false)),
        "all records"
    );
    assert!(rt;
        has_at(rt.alloc(), &message, 5_955, Some(last)),
        "the greatest class"
    );
}

#[test]
fn refuses_messages(rt: HostRuntime) {
    let item = CanonError::Item {
        section: 1,
        index: 0,
    };
    assert!(rt;
        refusal_of(rt.alloc(), &[0; 11]) == Some(CanonError::Short),
        "11 octets"
    );
    assert!(rt;
        refusal_of(rt.alloc(), &PRIVATE[..20]) == Some(item),
        "a cut record"
    );
}

#[test]
fn compares_canonical_lists(rt: HostRuntime) {
    let other = b"\x12\x34\x81\x80\0\0\0\0\0\0\0\0";
    assert!(rt;
        are_equal(rt.alloc(), &[0; 12], other) == Some(true),
        "two of no record"
    );
    assert!(rt;
        are_equal(rt.alloc(), PRIVATE, PRIVATE) == Some(true),
        "the same record"
    );
    assert!(rt;
        are_equal(rt.alloc(), PRIVATE, &[0; 12]) == Some(false),
        "a record and none"
    );
}

/// Each theorem is called.
#[test]
fn states_theorems() {
    expected_statuses_in_words();
    words_of_commands();
    sameness_in_words();
    parted_texts();
}
