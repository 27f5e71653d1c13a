//! The texts of errors.

use crate::holds::all_hold;
use crate::printed::prints;
use dns_label::{LabelParseError, LabelSplitError};
use dns_wire::{ParseError, TruncationError};

/// The errors of reading a whole text, and what they print.
const PARSE_ERRORS: &[(LabelParseError, &str)] = &[
    (LabelParseError::Overlong, "the label was too large"),
    (
        LabelParseError::InvalidChar,
        "the label contained an invalid character",
    ),
    (
        LabelParseError::PartialEscape,
        "the label contained an incomplete escape",
    ),
    (
        LabelParseError::InvalidEscape,
        "the label contained an invalid escape",
    ),
];

#[test]
fn errors_of_reading_a_whole_text_are_shown(rt: HostRuntime) {
    for (error, text) in PARSE_ERRORS {
        assert!(rt; prints(rt.alloc(), error, text), "{text}");
    }
}

/// The errors of reading the start of a text, and what they print.
const SPLIT_ERRORS: &[(LabelSplitError, &str)] = &[
    (LabelSplitError::Overlong, "the label was too large"),
    (
        LabelSplitError::InvalidChar,
        "the label contained an invalid character",
    ),
    (
        LabelSplitError::InvalidEscape,
        "the label contained an invalid escape",
    ),
    (
        LabelSplitError::ShortInput,
        "the input was too short to parse the label",
    ),
];

#[test]
fn errors_of_reading_a_prefix_are_shown(rt: HostRuntime) {
    for (error, text) in SPLIT_ERRORS {
        assert!(rt; prints(rt.alloc(), error, text), "{text}");
    }
}

#[test]
fn errors_of_the_wire_format_are_shown(rt: HostRuntime) {
    let parse = "DNS data could not be parsed from the wire format";
    let truncation = "a buffer was too small";
    all_hold(
        &rt,
        &[
            ("reading", prints(rt.alloc(), &ParseError, parse)),
            ("writing", prints(rt.alloc(), &TruncationError, truncation)),
        ],
    );
}
