//! Why a message is refused.

ghost use Rattle.std.specs.Prelude.{◌≡◌};

use std::alloc::{AllocError, AllocFailed};
use thiserror::Error;

/// Why a message has no canonical list.
#[derive(Clone, Copy, Debug, PartialEq, Eq, Error)]
pub enum CanonError {
    /// The message has fewer than 12 octets.
    #[error("the message has fewer than 12 octets")]
    Short,
    /// This item is the first that can't be read. Sections are numbered 0 to 3 (question, answer,
    /// authority, additional), and items from 0 in each.
    #[error("item {index} of section {section} cannot be read")]
    Item { section: u8, index: u16 },
    /// Memory ran out.
    #[error("out of memory")]
    Memory,
}

impl From<AllocError> for CanonError {
    ghost use Rattle.dns_message.specs.declared.canon_error.CanonError.TheVariants.{Memory};

    ghost from_gives = { λ _ e. e ≡ Memory };

    fn from(_error: AllocError) -> CanonError {
        CanonError::Memory
    }
}

impl<T: Drop> From<AllocFailed<T>> for CanonError {
    ghost use Rattle.dns_message.specs.declared.canon_error.CanonError.TheVariants.{Memory};

    ghost from_gives = { λ _ e. e ≡ Memory };

    fn from(_error: AllocFailed<T>) -> CanonError {
        CanonError::Memory
    }
}
