//! Labels as text: what is printed of every octet, and why a text is refused.

use crate::holds::all_hold;
use crate::printed::prints;
use dns_label::{Label, LabelBuf, LabelParseError, LabelSplitError, label_of};
use std::alloc::Global;

/// The octets that print as they are, in order.
const AS_THEY_ARE: &[u8] =
    b"!#$%&'*+,-0123456789ABCDEFGHIJKLMNOPQRSTUVWXYZ^_`abcdefghijklmnopqrstuvwxyz{|}~";

/// The octets that print after a backslash, in order.
const AFTER_A_BACKSLASH: &[u8] = b"\"()./:;<=>?@[\\]";

/// Whether the text is the octet, or the octet after a backslash, or a backslash and its number in three digits.
fn is_text_of(text: &[u8], octet: u8) -> bool {
    if AS_THEY_ARE.contains(&octet) {
        text == [octet].as_slice()
    } else if AFTER_A_BACKSLASH.contains(&octet) {
        text == [b'\\', octet].as_slice()
    } else {
        let (hundreds, tens, ones) = (octet / 100, octet / 10 % 10, octet % 10);
        text == [b'\\', b'0' + hundreds, b'0' + tens, b'0' + ones].as_slice()
    }
}

/// Whether a label of the octet alone is printed as wanted.
fn octet_is_printed(alloc: Global, octet: u8) -> bool {
    match label_of(&[octet]) {
        Ok(label) => match label.to_string(alloc) {
            Ok(text) => is_text_of(text.as_bytes(), octet),
            Err(_) => false,
        },
        Err(_) => false,
    }
}

#[test]
fn every_octet_is_printed(rt: HostRuntime) {
    for octet in 0..=255 {
        assert!(rt; octet_is_printed(rt.alloc(), octet), "{octet}");
    }
}

/// Whether a label with these contents prints the text.
fn label_prints(alloc: Global, contents: &[u8], text: &str) -> bool {
    match label_of(contents) {
        Ok(label) => prints(alloc, &label, text),
        Err(_) => false,
    }
}

#[test]
fn labels_are_printed(rt: HostRuntime) {
    let alloc = rt.alloc();
    let is_printed = label_prints(alloc, b"foo.b\nr", "foo\\.b\\010r");
    all_hold(
        &rt,
        &[
            (
                "unknown-codes-shown: a label",
                label_prints(alloc, b"\x2e\0A", "\\.\\000A"),
            ),
            ("a dot and a line feed", is_printed),
            ("the root", prints(alloc, &Label::root(), "")),
            ("a view", prints(alloc, &Label::wildcard(), "*")),
        ],
    );
}

/// The errors of reading the whole text and of reading a label at its start.
fn faults(text: &[u8]) -> (Option<LabelParseError>, Option<LabelSplitError>) {
    let split = match LabelBuf::split_str(text) {
        Ok(_) => None,
        Err(error) => Some(error),
    };
    (LabelBuf::parse_str(text).err(), split)
}

#[test]
fn cut_escapes_are_refused(rt: HostRuntime) {
    let wanted = (
        Some(LabelParseError::PartialEscape),
        Some(LabelSplitError::ShortInput),
    );
    all_hold(&rt, &[("two digits", faults(b"\\25") == wanted)]);
}
