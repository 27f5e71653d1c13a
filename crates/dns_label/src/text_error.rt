//! Why a text is no label.

use thiserror::Error;

/// A text is no label.
#[derive(Clone, Copy, Debug, PartialEq, Eq, Error)]
pub enum LabelParseError {
    /// The label would have more than 63 octets (RFC 1035 section 2.3.4).
    #[error("the label was too large")]
    Overlong,
    /// The text has an octet that no text of a label has, such as a space or a dot.
    #[error("the label contained an invalid character")]
    InvalidChar,
    /// The text ends within an escape: after a backslash, or before the third of three digits.
    #[error("the label contained an incomplete escape")]
    PartialEscape,
    /// A backslash comes before what is no escape: a number that is not of three decimal digits or is
    /// above 255, or an octet that is no graphic ASCII.
    #[error("the label contained an invalid escape")]
    InvalidEscape,
}

/// No label is at the start of a text.
#[derive(Clone, Copy, Debug, PartialEq, Eq, Error)]
pub enum LabelSplitError {
    /// The label would have more than 63 octets (RFC 1035 section 2.3.4).
    #[error("the label was too large")]
    Overlong,
    /// Never comes: the label ends before an octet that no text of a label has.
    #[error("the label contained an invalid character")]
    InvalidChar,
    /// A backslash comes before what is no escape: a number that is not of three decimal digits or is
    /// above 255, or an octet that is no graphic ASCII.
    #[error("the label contained an invalid escape")]
    InvalidEscape,
    /// The text ends before the label does, or within an escape.
    #[error("the input was too short to parse the label")]
    ShortInput,
}

/// What ends the scan of a label, in the order of the text.
#[derive(Clone, Copy)]
pub(crate) enum ScanFault {
    /// An octet that would be the 64th.
    Overlong,
    /// An escape that the end of the text cuts.
    CutEscape,
    /// An escape that represents no octet.
    WrongEscape,
}

impl From<ScanFault> for LabelParseError {
    ghost use Rattle.std.specs.Prelude.{◌≡◌};
    ghost use Rattle.dns_label.specs.Text.{parse_error};

    ghost from_gives = { λ fault e. e ≡ parse_error fault };

    fn from(fault: ScanFault) -> LabelParseError {
        match fault {
            ScanFault::Overlong => LabelParseError::Overlong,
            ScanFault::CutEscape => LabelParseError::PartialEscape,
            ScanFault::WrongEscape => LabelParseError::InvalidEscape,
        }
    }
}

impl From<ScanFault> for LabelSplitError {
    ghost use Rattle.std.specs.Prelude.{◌≡◌};
    ghost use Rattle.dns_label.specs.Text.{split_error};

    ghost from_gives = { λ fault e. e ≡ split_error fault };

    fn from(fault: ScanFault) -> LabelSplitError {
        match fault {
            ScanFault::Overlong => LabelSplitError::Overlong,
            ScanFault::CutEscape => LabelSplitError::ShortInput,
            ScanFault::WrongEscape => LabelSplitError::InvalidEscape,
        }
    }
}
