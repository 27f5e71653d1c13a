//! Why an item was not added to a message.

ghost use Rattle.std.specs.Prelude.{◌≡◌};

use dns_wire::TruncationError;
use thiserror::Error;

/// An item was not added to a message, which is as it was.
#[derive(Clone, Copy, Debug, PartialEq, Eq, Error)]
pub enum MessageBuildError {
    /// A section after the item's has an item (RFC 1035 section 4.1 has the sections in order).
    #[error("a later section has an item")]
    Misplaced,
    /// The section has 65,535 items, the most that its count can say (RFC 1035 section 4.1.1).
    #[error("the section is full")]
    TooMany,
    /// The item has more octets than the buffer has left, or data of more octets than their size can say.
    #[error("the item does not fit")]
    Truncated,
}

impl From<TruncationError> for MessageBuildError {
    ghost use Rattle.dns_message.specs.declared.build_error.MessageBuildError.TheVariants.{Truncated};

    ghost from_gives = { λ _ e. e ≡ Truncated };

    fn from(_: TruncationError) -> MessageBuildError {
        MessageBuildError::Truncated
    }
}
