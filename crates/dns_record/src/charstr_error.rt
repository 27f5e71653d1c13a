//! Why a text is no character string.

use thiserror::Error;

/// A text is no character string that can be read.
#[derive(Clone, Copy, Debug, PartialEq, Eq, Error)]
pub enum CharStrParseError {
    /// It has more than 255 octets (RFC 1035 section 3.3).
    #[error("the character string was too long")]
    Overlong,
    /// A backslash is in it, and escapes are not read.
    #[error("the character string contained an invalid character")]
    InvalidChar,
}
