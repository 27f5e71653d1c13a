//! How a run ends.

use dns_command::{Outcome, Refusal};
use std::convert::Infallible;

/// Why a text is refused. The messages of a text have the numbers 0 and 1, and no valid message is refused.
pub type CanonRefusal = Refusal<u8, Infallible>;

/// How a run ends.
#[derive(Clone, Copy, Debug, PartialEq, Eq)]
pub enum Status {
    /// Everything was written and flushed.
    Done,
    /// A message has fewer than 12 octets. Messages count from 0.
    Short {
        message: u8,
    },
    /// This item is the first of a message that can't be read. Sections are numbered 0 to 3 (question,
    /// answer, authority, additional), and items from 0 in each.
    Item {
        message: u8,
        section: u8,
        index: u16,
    },
    /// The text is not pairs of hexadecimal digits.
    BadHex,
    /// The text has more octets than the limit.
    TooLong,
    /// The words are no command.
    Usage,
    /// The source failed.
    ReadFault,
    /// The sink failed.
    WriteFault,
    /// Memory ran out.
    Memory,
}

/// The status of a text that is refused.
impl From<CanonRefusal> for Status {
    ghost use Rattle.std.specs.Prelude.{◌≡◌};
    ghost use Rattle.dns_canon.specs.Statuses.{refusal_status};

    ghost from_gives = { λ refusal status. status ≡ refusal_status refusal };

    fn from(refusal: CanonRefusal) -> Status {
        match refusal {
            Refusal::BadHex => Status::BadHex,
            Refusal::Short { message } => Status::Short { message },
            Refusal::Item {
                message,
                section,
                index,
            } => Status::Item {
                message,
                section,
                index,
            },
            Refusal::Own(reason) => match reason {},
        }
    }
}

impl From<Outcome<CanonRefusal>> for Status {
    ghost use Rattle.std.specs.Prelude.{◌≡◌};
    ghost use Rattle.dns_canon.specs.Statuses.{status_of};

    ghost from_gives = { λ outcome status. status ≡ status_of outcome };

    fn from(outcome: Outcome<CanonRefusal>) -> Status {
        match outcome {
            Outcome::Done => Status::Done,
            Outcome::Usage => Status::Usage,
            Outcome::TooLong => Status::TooLong,
            Outcome::Refused(refusal) => Status::from(refusal),
            Outcome::ReadFault => Status::ReadFault,
            Outcome::WriteFault => Status::WriteFault,
            Outcome::Memory => Status::Memory,
        }
    }
}

impl Status {
    ghost use Rattle.std.specs.Prelude.{◌≡◌};
    ghost use Rattle.dns_canon.specs.Statuses.{code_of};

    /// The code that a process ends with, from 0 to 8.
    pub fn code(&self) -> u8
        ensures { result ≡ code_of self.now }
    {
        match self {
            Status::Done => 0,
            Status::Short { .. } => 1,
            Status::Item { .. } => 2,
            Status::BadHex => 3,
            Status::TooLong => 4,
            Status::Usage => 5,
            Status::ReadFault => 6,
            Status::WriteFault => 7,
            Status::Memory => 8,
        }
    }
}
