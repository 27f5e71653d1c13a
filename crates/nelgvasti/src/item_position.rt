//! Where messages are refused.

ghost use Rattle.std.specs.Prelude.{◌≡◌};
ghost use Rattle.dns_message.specs.declared.canon_error.CanonError.{CanonError};

use crate::answers::{ITEM, MEMORY, SHORT};
use dns_message::CanonError;

/// Which message is refused, and which of its items can't be read.
#[repr(C)]
#[derive(Clone, Copy, Debug, PartialEq, Eq)]
pub struct ItemPosition {
    /// The number of the message, from 0.
    pub message: u32,
    /// The section of the item: 0 questions, 1 answers, 2 authorities, 3 additional records.
    pub section: u32,
    /// The number of the item in its section, from 0.
    pub index: u32,
}

impl ItemPosition {
    ghost use Rattle.nelgvasti.specs.Refused.{answer_of, position_of};

    /// The answer to the refusal of the message of this number. The position is written if it is one of the message's, and not for memory.
    pub(crate) fn refuse(&mut self, message: u32, error: CanonError) -> u32
        ensures answer { result ≡ answer_of error }
        ensures position { self.new ≡ position_of error message self.old }
    {
        match error {
            CanonError::Short => {
                *self = ItemPosition {
                    message,
                    section: 0,
                    index: 0,
                };
                SHORT
            }
            CanonError::Item { section, index } => {
                *self = ItemPosition {
                    message,
                    section: u32::from(section),
                    index: u32::from(index),
                };
                ITEM
            }
            CanonError::Memory => MEMORY,
        }
    }
}
