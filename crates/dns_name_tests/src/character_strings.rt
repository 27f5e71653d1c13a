//! Character strings from octets and from text, and why others are none.

use crate::assertion::holds;
use crate::printing::prints;
use dns_record::{CharStr, CharStrBuf, CharStrParseError};
use dns_wire::{ParseBytes, SplitBytes};

/// Whether the octets begin with this string, and the rest follow; nothing may follow a string that is read alone.
fn splits(octets: &[u8], string: &[u8], rest: &[u8]) -> bool {
    match CharStr::split_bytes(octets) {
        Ok((found, left)) => {
            found.octets() == string && left == rest && CharStr::parse_bytes(octets).is_err()
        }
        Err(_) => false,
    }
}

#[test]
fn reads_strings(rt: HostRuntime) {
    holds(&rt, splits(b"\x05Hello!", b"Hello", b"!"), "charstr-hello");
}

/// Whether the text is read as the string with these octets, the length octet first.
fn reads_text(text: &str, octets: &[u8]) -> bool {
    match text.parse::<CharStrBuf>() {
        Ok(string) => string.wire_bytes() == octets,
        Err(_) => false,
    }
}

#[test]
fn reads_texts(rt: HostRuntime) {
    holds(
        &rt,
        reads_text("a/b \"c\"", b"\x07a/b \"c\""),
        "a slash and quotes",
    );
}

/// Why the text is no string.
fn error_of(text: &[u8]) -> Option<CharStrParseError> {
    match str::from_utf8(text) {
        Ok(text) => text.parse::<CharStrBuf>().err(),
        Err(_) => None,
    }
}

/// A text of 256 letters.
const LONG: &[u8] = &[b'a'; 256];

#[test]
fn refuses_texts(rt: HostRuntime) {
    let error = error_of(b"a\\b");
    holds(
        &rt,
        error == Some(CharStrParseError::InvalidChar),
        "charstrbuf-refusals: a backslash",
    );
    let error = error_of(LONG);
    holds(
        &rt,
        error == Some(CharStrParseError::Overlong),
        "charstrbuf-refusals: 256 letters",
    );
}

/// The errors of reading a text, and what they print.
const ERRORS: &[(CharStrParseError, &str)] = &[
    (
        CharStrParseError::Overlong,
        "the character string was too long",
    ),
    (
        CharStrParseError::InvalidChar,
        "the character string contained an invalid character",
    ),
];

#[test]
fn prints_errors_of_strings(rt: HostRuntime) {
    for (error, text) in ERRORS {
        assert!(rt; prints(rt.alloc(), error, text), "{text}");
    }
}
