//! Why octets could not be read or written.

use thiserror::Error;

/// The octets are not in the grammar of the value that was to be read.
#[derive(Clone, Copy, Debug, PartialEq, Eq, Hash, Error)]
#[error("DNS data could not be parsed from the wire format")]
pub struct ParseError;

/// There is less room in a buffer than a value needs, or data are too long for the number that says
/// their size.
#[derive(Clone, Copy, Debug, PartialEq, Eq, Error)]
#[error("a buffer was too small")]
pub struct TruncationError;
