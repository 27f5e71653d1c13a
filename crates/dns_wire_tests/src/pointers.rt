//! Labels, roots and pointers at an offset. Offsets of contents count from the end of the header, and those
//! in pointers from its start.

use dns_wire::{LabelType, read_label_type};

/// The label `a`, a root, and pointers to 0 and into the header, then an octet that begins nothing.
const CONTENTS: &[u8] = b"\x01a\0\xc0\x0c\xc0\x0b\x40";

/// What is at the offset of a name that begins at `start`: its kind, and a label's size or where a pointer leads.
fn label_type(start: usize, at: usize) -> Option<(&'static str, usize)> {
    match read_label_type(CONTENTS, start, at) {
        Ok(LabelType::Label(size)) => Some(("label", size)),
        Ok(LabelType::Root) => Some(("root", 0)),
        Ok(LabelType::Pointer(target)) => Some(("pointer", target)),
        Err(_) => None,
    }
}

/// Where a name begins, an offset in it, and what is there.
const LABEL_TYPES: &[(&str, usize, usize, Option<(&str, usize)>)] = &[
    ("label", 0, 0, Some(("label", 1))),
    ("root", 0, 2, Some(("root", 0))),
    ("pointer before its name", 1, 3, Some(("pointer", 0))),
    ("pointer to its own name", 0, 3, None),
    ("pointer into the header", 5, 5, None),
    ("octet 64", 7, 7, None),
    ("end", 8, 8, None),
];

#[test]
fn labels_roots_and_pointers_are_read(rt: HostRuntime) {
    for (what, start, at, wanted) in LABEL_TYPES {
        assert!(rt; label_type(*start, *at) == *wanted, "{what}");
    }
}
