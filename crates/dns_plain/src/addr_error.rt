//! Why a text is no address.

use thiserror::Error;

/// The text is in no form of an address that is read.
#[derive(Clone, Copy, Debug, PartialEq, Eq, Error)]
#[error("the address could not be read")]
pub struct AddrParseError;
