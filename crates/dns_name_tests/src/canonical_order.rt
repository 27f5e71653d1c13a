//! The orders of names: label order, as RFC 4034 section 6.1 shows it, and the orders of octets.

use crate::assertion::holds;
use crate::names::name;
use dns_name::CanonicalName;
use std::cmp::Ordering::{self, Equal, Greater, Less};

/// The names of RFC 4034 section 6.1, in its order.
const ORDERED: &[&[u8]] = &[
    b"\x07example\0",
    b"\x01a\x07example\0",
    b"\x08yljkjljk\x01a\x07example\0",
    b"\x01Z\x01a\x07example\0",
    b"\x04zABC\x01a\x07EXAMPLE\0",
    b"\x01z\x07example\0",
    b"\x01\x01\x01z\x07example\0",
    b"\x01*\x01z\x07example\0",
    b"\x01\xc8\x01z\x07example\0",
];

/// The order of the names that the octets are.
fn order(one: &[u8], other: &[u8]) -> Ordering {
    name(one).cmp(&name(other))
}

#[test]
fn compares_labels_from_the_root_on(rt: HostRuntime) {
    for (i, one) in ORDERED.iter().enumerate() {
        for (j, other) in ORDERED.iter().enumerate() {
            assert!(rt; order(one, other) == i.cmp(&j), "{i} and {j}");
        }
    }
}

/// Pairs of names, and their order: one whose octets end as the other's do, inside a label; the root; and names in another case.
pub(crate) const PAIRS: &[(&str, &[u8], &[u8], Ordering)] = &[
    ("label-order-inside", b"\x01a\0", b"\x03!\x01a\0", Greater),
    ("root-before-all", b"\0", b"\x01a\0", Less),
    (
        "equal-but-for-case",
        b"\x01A\x01b\0",
        b"\x01a\x01B\0",
        Equal,
    ),
];

#[test]
fn labels_end_where_their_length_says(rt: HostRuntime) {
    for (what, one, other, wanted) in PAIRS {
        assert!(rt; order(one, other) == *wanted, "{what}");
    }
}

/// The orders of two names by octets, as they are and in lowercase.
fn orders_by_octets(one: &[u8], other: &[u8]) -> (Ordering, Ordering) {
    let (one, other) = (name(one), name(other));
    (one.cmp_composed(&other), one.cmp_lowercase_composed(&other))
}

#[test]
fn compares_octets(rt: HostRuntime) {
    let orders = orders_by_octets(b"\x01a\x01B\0", b"\x01A\x01b\0");
    holds(&rt, orders == (Greater, Equal), "capitals in other places");
}
