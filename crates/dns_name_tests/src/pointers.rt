//! Names in the contents of messages, with their pointers followed. Offsets count from the end of the header, and
//! those in pointers from its beginning, which is 12 octets before.

use crate::assertion::holds;
use dns_name::NameBuf;
use dns_wire::SplitMessageBytes;

/// Where the name ends that begins at the offset, if these are its octets.
pub(crate) fn end_of_name(contents: &[u8], offset: usize, octets: &[u8]) -> Option<usize> {
    match NameBuf::split_message_bytes(contents, offset) {
        Ok((name, end)) => {
            if name.as_name().as_bytes() == octets {
                Some(end)
            } else {
                None
            }
        }
        Err(_) => None,
    }
}

/// Pointers at 12 to 18, each to the one before, and the first to the root at 11.
pub(crate) const CHAIN: &[u8] =
    b"\0\xff\0\0\x01\0\0\0\0\0\x07\0\xc0\x17\xc0\x18\xc0\x1a\xc0\x1c\0\x01\0\x01\0\0\0\0\0\x04\xc0\0\x02\x01";

/// A label of four octets, the last two of them a pointer to the label.
const OVER_POINTER: &[u8] = b"\0\x04abc\xc0\x0d\0\x01\0\x01\0\0\0\0\0\x04\xc0\0\x02\0";

/// The name at the pointer in `OVER_POINTER`.
const OVER_POINTER_NAME: &[u8] = b"\x04abc\xc0\x0d\0\x01\0\x01\0\0\0\0\0\x04\xc0\0\x02\0";

/// Contents of messages, offsets of names in them, the octets of these, and where they end.
const NAMES: &[(&str, &[u8], usize, &[u8], usize)] = &[
    ("a chain", CHAIN, 18, b"\0", 20),
    ("through itself", OVER_POINTER, 5, OVER_POINTER_NAME, 7),
    ("over a pointer", OVER_POINTER, 1, OVER_POINTER_NAME, 21),
];

#[test]
fn follows_pointers(rt: HostRuntime) {
    for (what, contents, offset, octets, end) in NAMES {
        let found = end_of_name(contents, *offset, octets);
        assert!(rt; found == Some(*end), "{what}");
    }
}

/// Whether no name begins at the start of the contents.
fn is_refused(contents: &[u8]) -> bool {
    NameBuf::split_message_bytes(contents, 0).is_err()
}

#[test]
fn refuses_pointers_that_do_not_lead_back(rt: HostRuntime) {
    let at_itself = b"\xc0\x0c\0\x01\0\x01\0\0\0\x3c\0\x04\xc0\0\x02\x01";
    holds(&rt, is_refused(at_itself), "to itself");
    let into_header = b"\xc0\x0b\0\x01\0\x01\0\0\0\x3c\0\x04\xc0\0\x02\x01";
    holds(&rt, is_refused(into_header), "into the header");
}
