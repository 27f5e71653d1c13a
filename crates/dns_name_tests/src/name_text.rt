//! Names as text: what is read and printed, and where a text is refused.

use crate::assertion::holds;
use crate::names::name;
use crate::printing::prints;
use dns_name::{NameBuf, NameParseError, NameSplitError};
use std::alloc::Global;

/// Whether the text spells the name of these octets.
fn parses_str(text: &str, octets: &[u8]) -> bool {
    match NameBuf::parse_str(text.as_bytes()) {
        Ok(name) => name.as_name().as_bytes() == octets,
        Err(_) => false,
    }
}

/// The texts of names, and their octets.
const NAMES: &[(&str, &[u8])] = &[
    ("", b"\0"),
    ("www.Example.com.", b"\x03www\x07Example\x03com\0"),
    ("a\\.b.\\000\\255.", b"\x03a.b\x02\x00\xff\0"),
    ("_25._tcp.\\@.", b"\x03_25\x04_tcp\x01@\0"),
];

/// Whether the name of these octets prints the text, as a view and in a buffer.
fn prints_name(alloc: Global, octets: &[u8], text: &str) -> bool {
    let name = name(octets);
    prints(alloc, &name, text) && prints(alloc, &NameBuf::copy_from(name), text)
}

#[test]
fn reads_and_prints_names(rt: HostRuntime) {
    for (text, octets) in NAMES {
        assert!(rt; prints_name(rt.alloc(), octets, text), "{text}");
        assert!(rt; parses_str(text, octets), "{text} is read");
    }
}

/// Why the text is no name.
fn parse_error(text: &[u8]) -> Option<NameParseError> {
    NameBuf::parse_str(text).err()
}

/// A label of 64 octets.
const LONG: &[u8] = &[b'a'; 64];

/// Texts that are no names, and why.
const REFUSED: &[(&str, &[u8], NameParseError)] = &[
    ("a dot", b".", NameParseError::EmptyLabel),
    ("no dot", b"a", NameParseError::Relative),
    ("two dots", b"a..", NameParseError::EmptyLabel),
    ("half an escape", b"\\2", NameParseError::PartialEscape),
    ("256", b"\\256.", NameParseError::InvalidEscape),
    ("64 letters", LONG, NameParseError::OverlongLabel),
    ("a space", b"a b.", NameParseError::InvalidChar),
];

#[test]
fn refuses_texts(rt: HostRuntime) {
    for (what, text, error) in REFUSED {
        assert!(rt; parse_error(text) == Some(*error), "name-texts: {what}");
    }
}

/// Whether the text begins with the name of these octets, and the rest follows.
fn splits_str(text: &[u8], octets: &[u8], rest: &[u8]) -> bool {
    match NameBuf::split_str(text) {
        Ok((name, left)) => name.as_name().as_bytes() == octets && left == rest,
        Err(_) => false,
    }
}

/// Why no name is before other text.
fn split_error(text: &[u8]) -> Option<NameSplitError> {
    NameBuf::split_str(text).err()
}

#[test]
fn reads_names_before_other_text(rt: HostRuntime) {
    holds(
        &rt,
        splits_str(b"a. x", b"\x01a\0", b" x"),
        "name-texts: a name before a space",
    );
    let error = split_error(b"a.");
    holds(
        &rt,
        error == Some(NameSplitError::ShortInput),
        "name-texts: a name alone",
    );
    let error = split_error(LONG);
    holds(
        &rt,
        error == Some(NameSplitError::OverlongLabel),
        "name-texts: 64 letters",
    );
}
