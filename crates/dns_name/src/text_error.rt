//! Why a text is no name.

ghost use Rattle.std.specs.Prelude.{◌≡◌};
ghost use Rattle.dns_name.specs.Text.{of_label, of_label_split};

use dns_label::{LabelParseError, LabelSplitError};
use thiserror::Error;

/// A text is no name that ends with the root.
#[derive(Clone, Copy, Debug, PartialEq, Eq, Error)]
pub enum NameParseError {
    /// The name would have more than 255 octets, its length octets and the root counted (RFC 1035 section
    /// 2.3.4).
    #[error("the domain name was too long")]
    Overlong,
    /// The text ends after a label that no dot follows.
    #[error("the domain name did not end with `.`")]
    Relative,
    /// A dot is where a label should begin.
    #[error("the domain name contained an empty label")]
    EmptyLabel,
    /// A label would have more than 63 octets (RFC 1035 section 2.3.4).
    #[error("a label in the domain name was too long")]
    OverlongLabel,
    /// The text has an octet that no text of a name has, such as a space.
    #[error("the domain name contained an invalid character")]
    InvalidChar,
    /// The text ends within an escape: after a backslash, or before the third of three digits.
    #[error("the domain name contained an incomplete escape")]
    PartialEscape,
    /// A backslash comes before what is no escape: a number that is not of three decimal digits or is
    /// above 255, or an octet that is no graphic ASCII.
    #[error("the domain name contained an invalid escape")]
    InvalidEscape,
}

/// No name that ends with the root is at the start of a text.
#[derive(Clone, Copy, Debug, PartialEq, Eq, Error)]
pub enum NameSplitError {
    /// The name would have more than 255 octets, its length octets and the root counted (RFC 1035 section
    /// 2.3.4).
    #[error("the domain name was too long")]
    Overlong,
    /// A label ends before an octet that is no dot and that no text of a name has.
    #[error("the domain name did not end with `.`")]
    Relative,
    /// A dot is where a label should begin.
    #[error("the domain name contained an empty label")]
    EmptyLabel,
    /// A label would have more than 63 octets (RFC 1035 section 2.3.4).
    #[error("a label in the domain name was too long")]
    OverlongLabel,
    /// Never comes from reading: the name ends before an octet that no text of a name has.
    #[error("the domain name contained an invalid character")]
    InvalidChar,
    /// A backslash comes before what is no escape: a number that is not of three decimal digits or is
    /// above 255, or an octet that is no graphic ASCII.
    #[error("the domain name contained an invalid escape")]
    InvalidEscape,
    /// The text ends before the name does, or within an escape.
    #[error("the input was too short to parse the domain name")]
    ShortInput,
}

/// The variant keeps its name, but a label that is too long is distinguished from such a name.
impl From<LabelParseError> for NameParseError {
    ghost from_gives = { λ error e. e ≡ of_label error };

    fn from(error: LabelParseError) -> NameParseError {
        match error {
            LabelParseError::Overlong => NameParseError::OverlongLabel,
            LabelParseError::InvalidChar => NameParseError::InvalidChar,
            LabelParseError::PartialEscape => NameParseError::PartialEscape,
            LabelParseError::InvalidEscape => NameParseError::InvalidEscape,
        }
    }
}

/// The variant keeps its name, but a label that is too long is distinguished from such a name.
impl From<LabelSplitError> for NameSplitError {
    ghost from_gives = { λ error e. e ≡ of_label_split error };

    fn from(error: LabelSplitError) -> NameSplitError {
        match error {
            LabelSplitError::Overlong => NameSplitError::OverlongLabel,
            LabelSplitError::InvalidChar => NameSplitError::InvalidChar,
            LabelSplitError::InvalidEscape => NameSplitError::InvalidEscape,
            LabelSplitError::ShortInput => NameSplitError::ShortInput,
        }
    }
}
