//! How far octets agree. The names are those of RFC 4034 section 6.1, and of RFC 4343 section 2.2.

use dns_wire::{agreement_from_end, agreement_from_start, compare_lowercase};
use std::cmp::Ordering;

/// How many octets agree from the first on, and from the last back.
fn agreement(one: &[u8], other: &[u8]) -> (usize, usize) {
    (
        agreement_from_start(one, other),
        agreement_from_end(one, other),
    )
}

/// A name in lowercase.
const LOWERCASE: &[u8] = b"\x09yljkjljkj\x01a\x07example\x00";

/// The same name with two capitals.
const MIXED: &[u8] = b"\x09yljkjljkj\x01A\x07exAmple\x00";

/// A name with another second label.
const OTHER: &[u8] = b"\x09yljkjljkj\x01z\x07example\x00";

/// Octets, and how many agree from the first on, and from the last back.
const AGREEMENTS: &[(&str, &[u8], &[u8], (usize, usize))] = &[
    ("case", LOWERCASE, MIXED, (21, 21)),
    ("a label", LOWERCASE, OTHER, (11, 9)),
    ("a label and case", MIXED, OTHER, (11, 9)),
    ("one label", b"a\x00", OTHER, (0, 1)),
    ("nothing", b"", LOWERCASE, (0, 0)),
];

#[test]
fn octets_agree_up_to_the_first_that_differ(rt: HostRuntime) {
    for (what, one, other, wanted) in AGREEMENTS {
        assert!(rt; agreement(one, other) == *wanted, "{what}");
    }
}

/// Octets that are less than others in lowercase.
const LESSER: &[(&str, &[u8], &[u8])] = &[("a bracket", b"[", b"a"), ("a label", MIXED, OTHER)];

#[test]
fn octets_are_compared_in_lowercase(rt: HostRuntime) {
    for (what, one, other) in LESSER {
        let is_less = compare_lowercase(one, other) == Ordering::Less;
        assert!(rt; is_less, "{what}");
    }
}
