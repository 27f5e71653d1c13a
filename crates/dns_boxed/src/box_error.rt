//! Why record data are not kept in their own memory.

ghost use Rattle.std.specs.Prelude.{◌≡◌};

use std::alloc::AllocError;

/// Why record data are not kept.
#[derive(Clone, Copy, Debug, PartialEq, Eq)]
pub enum BoxError {
    /// The octets are more than 65,535, which is what a record's size can say (RFC 1035 section 3.2.1).
    TooLong,
    /// The octets are not data of their type.
    Unreadable,
    /// Memory ran out.
    Memory,
}

impl From<AllocError> for BoxError {
    ghost use Rattle.dns_boxed.specs.declared.box_error.BoxError.TheVariants.{Memory};

    ghost from_gives = { λ _ e. e ≡ Memory };

    fn from(_error: AllocError) -> BoxError {
        BoxError::Memory
    }
}
