//! Serial numbers.

use crate::assertion::holds;
use crate::printing::prints;
use dns_record::Serial;
use std::cmp::Ordering::{self, Equal, Greater, Less};

/// How the serial numbers compare.
fn compared(one: u32, other: u32) -> Option<Ordering> {
    Serial::new(one).partial_cmp(&Serial::new(other))
}

/// The serial number that is this much greater.
fn incremented(serial: u32, count: i32) -> Option<u32> {
    if count < 0 {
        return None;
    }
    Some(Serial::new(serial).inc(count).get())
}

/// The cases of RFC 1982 sections 3.2 and 5.
const COMPARED: &[(u32, u32, Option<Ordering>)] = &[
    (0, 4_294_967_295, Some(Greater)),
    (4_294_967_295, 0, Some(Less)),
    (1, 2_147_483_649, None),
    (2_147_483_649, 1, None),
    (1, 2_147_483_648, Some(Less)),
    (1, 2_147_483_650, Some(Greater)),
    (7, 7, Some(Equal)),
];

#[test]
fn serial_numbers_compare(rt: HostRuntime) {
    for (one, other, wanted) in COMPARED {
        let found = compared(*one, *other);
        assert!(rt; found == *wanted, "serial-cases: {one} and {other}");
    }
}

/// The cases of RFC 1982 sections 3.1 and 5: a number, how far ahead, and the number that is there.
const INCREMENTED: &[(u32, i32, u32)] = &[
    (4_294_967_295, 1, 0),
    (4_294_967_295, i32::MAX, 2_147_483_646),
    (5, 0, 5),
];

#[test]
fn serial_numbers_are_incremented(rt: HostRuntime) {
    for (serial, count, wanted) in INCREMENTED {
        let found = incremented(*serial, *count);
        assert!(rt; found == Some(*wanted), "serial-cases: {serial} by {count}");
    }
}

#[test]
fn serial_numbers_are_printed(rt: HostRuntime) {
    let largest = Serial::new(4_294_967_295);
    holds(
        &rt,
        prints(rt.alloc(), &largest, "4294967295"),
        "the largest",
    );
}
