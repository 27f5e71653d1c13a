//! Why a text is no name: the printed texts.

use crate::printing::prints;
use dns_name::{NameParseError, NameSplitError};

/// The errors of reading a whole text, and what they print.
const PARSE_ERRORS: &[(NameParseError, &str)] = &[
    (NameParseError::Overlong, "the domain name was too long"),
    (
        NameParseError::Relative,
        "the domain name did not end with `.`",
    ),
    (
        NameParseError::EmptyLabel,
        "the domain name contained an empty label",
    ),
    (
        NameParseError::OverlongLabel,
        "a label in the domain name was too long",
    ),
    (
        NameParseError::InvalidChar,
        "the domain name contained an invalid character",
    ),
    (
        NameParseError::PartialEscape,
        "the domain name contained an incomplete escape",
    ),
    (
        NameParseError::InvalidEscape,
        "the domain name contained an invalid escape",
    ),
];

#[test]
fn prints_parse_errors(rt: HostRuntime) {
    for (error, text) in PARSE_ERRORS {
        assert!(rt; prints(rt.alloc(), error, text), "{text}");
    }
}

/// The errors of reading the start of a text, and what they print.
const SPLIT_ERRORS: &[(NameSplitError, &str)] = &[
    (NameSplitError::Overlong, "the domain name was too long"),
    (
        NameSplitError::Relative,
        "the domain name did not end with `.`",
    ),
    (
        NameSplitError::EmptyLabel,
        "the domain name contained an empty label",
    ),
    (
        NameSplitError::OverlongLabel,
        "a label in the domain name was too long",
    ),
    (
        NameSplitError::InvalidChar,
        "the domain name contained an invalid character",
    ),
    (
        NameSplitError::InvalidEscape,
        "the domain name contained an invalid escape",
    ),
    (
        NameSplitError::ShortInput,
        "the input was too short to parse the domain name",
    ),
];

#[test]
fn prints_split_errors(rt: HostRuntime) {
    for (error, text) in SPLIT_ERRORS {
        assert!(rt; prints(rt.alloc(), error, text), "{text}");
    }
}
