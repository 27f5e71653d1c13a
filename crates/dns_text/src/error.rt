//! Why a text is not read, and why it spells no octets.

ghost use Rattle.std.specs.Prelude.{◌≡◌};

use crate::io::traits::Failed;
use std::alloc::AllocError;

/// Why a text was not read.
#[derive(Clone, Copy, Debug, PartialEq, Eq)]
pub enum TextError {
    /// The source has more octets left than the limit.
    TooLong,
    /// The source failed.
    ReadFault,
    /// Memory ran out.
    Memory,
}

impl From<Failed> for TextError {
    ghost use Rattle.dns_text.specs.declared.error.TextError.TheVariants.{ReadFault};

    ghost from_gives = { λ _ e. e ≡ ReadFault };

    fn from(_error: Failed) -> TextError {
        TextError::ReadFault
    }
}

impl From<AllocError> for TextError {
    ghost use Rattle.dns_text.specs.declared.error.TextError.TheVariants.{Memory};

    ghost from_gives = { λ _ e. e ≡ Memory };

    fn from(_error: AllocError) -> TextError {
        TextError::Memory
    }
}

/// Why a text gave no octets.
#[derive(Clone, Copy, Debug, PartialEq, Eq)]
pub enum HexError {
    /// The text is not pairs of hexadecimal digits.
    BadHex,
    /// Memory ran out.
    Memory,
}

impl From<AllocError> for HexError {
    ghost use Rattle.dns_text.specs.declared.error.HexError.TheVariants.{Memory};

    ghost from_gives = { λ _ e. e ≡ Memory };

    fn from(_error: AllocError) -> HexError {
        HexError::Memory
    }
}
