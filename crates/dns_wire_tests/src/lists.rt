//! Lists of values, and text.

use crate::holds::all_hold;
use dns_num::U16;
use dns_wire::{ListError, ParseBytes, split_list};
use std::alloc::Global;

/// Three numbers of two octets and another octet.
const OCTETS: &[u8] = b"\x00\x01\x00\x02\x00\x03\xff";

/// Whether the three numbers are read, and an octet is left.
fn lists_numbers(alloc: Global) -> bool {
    let wanted = [U16::new(1), U16::new(2), U16::new(3)];
    match split_list::<U16>(alloc, OCTETS, 3) {
        Ok((numbers, rest)) => {
            numbers.as_slice() == wanted.as_slice() && rest == b"\xff".as_slice()
        }
        Err(_) => false,
    }
}

/// Whether a fourth number is missing, and memory is not.
fn refuses_more(alloc: Global) -> bool {
    matches!(split_list::<U16>(alloc, OCTETS, 4), Err(ListError::Parse))
}

/// Whether 65,535 octets are read as a list, the most that a length of two octets counts.
fn lists_most(alloc: Global) -> bool {
    let octets = [7; 65_535];
    match split_list::<u8>(alloc, &octets, 65_535) {
        Ok((values, rest)) => values.as_slice() == octets.as_slice() && rest.is_empty(),
        Err(_) => false,
    }
}

#[test]
fn lists_are_read_value_by_value(rt: HostRuntime) {
    all_hold(
        &rt,
        &[
            ("split-list-u16, three", lists_numbers(rt.alloc())),
            ("split-list-u16, four", refuses_more(rt.alloc())),
            ("the most octets", lists_most(rt.alloc())),
        ],
    );
}

/// The text that the octets are.
fn text_of(octets: &[u8]) -> Option<&str> {
    <&str>::parse_bytes(octets).ok()
}

/// Octets, and the text that they are. The first text is one of RFC 3629 section 7. No text has an octet too many for
/// its character, a surrogate, a character cut short, or an octet of 255 (section 3).
const TEXTS: &[(&str, &[u8], Option<&str>)] = &[
    (
        "three characters and a dot",
        b"A\xe2\x89\xa2\xce\x91.",
        Some("A\u{2262}\u{391}."),
    ),
    ("nothing", b"", Some("")),
    ("an octet too many", b"\xc0\x80", None),
    ("a surrogate", b"a\xed\xa0\x80", None),
    ("a character cut short", b"\xe2\x89", None),
    ("an octet of 255", b"\xff", None),
];

#[test]
fn text_is_read_where_it_is_utf8(rt: HostRuntime) {
    for (what, octets, wanted) in TEXTS {
        assert!(rt; text_of(octets) == *wanted, "{what}");
    }
}
