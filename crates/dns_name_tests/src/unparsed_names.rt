//! Names as they occur, whatever their pointers lead to.

use crate::assertion::holds;
use dns_name::UnparsedName;
use dns_wire::{ParseBytes, ParseName, SplitMessageBytes};

/// How many labels are before the pointer, and where the rest leads after the first label.
fn labels_and_pointer(octets: &[u8]) -> Option<(usize, Option<u16>)> {
    match UnparsedName::parse_bytes(octets) {
        Ok(name) => match name.split_first() {
            Some((_first, rest)) => Some((name.label_count(), rest.pointer_value())),
            None => None,
        },
        Err(_) => None,
    }
}

#[test]
fn keeps_labels_and_pointers(rt: HostRuntime) {
    let found = labels_and_pointer(b"\x03www\xc0\x0c");
    holds(&rt, found == Some((1, Some(12))), "a label and a pointer");
}

/// Where the unparsed name ends that begins at the offset.
fn unparsed_end(contents: &[u8], offset: usize) -> Option<usize> {
    match UnparsedName::split_message_bytes(contents, offset) {
        Ok((_name, end)) => Some(end),
        Err(_) => None,
    }
}

/// The name `a.`, the label `b` with a pointer to it, and a pointer to itself.
const CONTENTS: &[u8] = b"\x01a\0\x01b\xc0\x0c\xc0\x13.";

/// Contents of messages, offsets of names in them, and where these end.
const NAMES: &[(&str, &[u8], usize, Option<usize>)] = &[
    ("to before", CONTENTS, 3, Some(7)),
    ("to just before", b"........\xc0\x13", 8, Some(10)),
    ("to itself", CONTENTS, 7, None),
    ("into the header", b"........\xc0\x0b", 8, None),
    ("to itself, the first octet", b"\xc0\x0c", 0, None),
    ("after the end", CONTENTS, 11, None),
];

/// A pointer leads after the header, and before the name: 12 is the first octet after the header.
#[test]
fn leads_back_in_messages(rt: HostRuntime) {
    for (what, contents, offset, end) in NAMES {
        assert!(rt; unparsed_end(contents, *offset) == *end, "{what}");
    }
}
