//! The order of labels.

use dns_label::label_of;
use std::cmp::Ordering;

/// How two labels with these contents compare.
fn order(one: &[u8], other: &[u8]) -> Option<Ordering> {
    match (label_of(one), label_of(other)) {
        (Ok(one), Ok(other)) => Some(one.cmp(&other)),
        _ => None,
    }
}

/// The first labels of names that RFC 4034 section 6.1 orders under one parent, each with one after it.
const ORDERED: &[(&str, &[u8], &[u8])] = &[
    ("yljkjljk and Z", b"yljkjljk", b"Z"),
    ("Z and zABC", b"Z", b"zABC"),
    ("yljkjljk and zABC", b"yljkjljk", b"zABC"),
    ("1 and *", b"\x01", b"*"),
    ("* and 200", b"*", b"\xc8"),
    ("1 and 200", b"\x01", b"\xc8"),
];

#[test]
fn labels_are_ordered(rt: HostRuntime) {
    for (what, one, other) in ORDERED {
        assert!(rt; order(one, other) == Some(Ordering::Less), "{what}");
    }
}
