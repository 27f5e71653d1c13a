//! How a run over a zone ends.

use crate::refusal::{ZoneReason, ZoneRefusal};
use dns_command::{Outcome, Refusal};

/// How a run over a zone ends.
#[derive(Clone, Copy, Debug, PartialEq, Eq)]
pub enum ZoneStatus {
    /// Everything was written and flushed.
    Done,
    /// A message has fewer than 12 octets. Messages count from 0.
    Short {
        message: u32,
    },
    /// This item is the first of a message that can't be read. Sections are numbered 0 to 3 (question,
    /// answer, authority, additional), and items from 0 in each.
    Item {
        message: u32,
        section: u8,
        index: u16,
    },
    /// A line of the text is not pairs of hexadecimal digits.
    BadHex,
    /// The text has more octets than the limit.
    TooLong,
    /// The words are no command.
    Usage,
    /// The source failed.
    ReadFault,
    /// The sink failed.
    WriteFault,
    /// Memory ran out.
    Memory,
    /// The messages are valid, and have no SOA record of the apex.
    NoSoa,
}

/// The status of a text that is refused.
impl From<ZoneRefusal> for ZoneStatus {
    ghost use Rattle.std.specs.Prelude.{◌≡◌};
    ghost use Rattle.dns_command.specs.declared.outcome.Outcome.TheVariants.{Refused};
    ghost use Rattle.dns_zone.specs.Texts.{outcome_of};

    ghost from_gives = { λ refusal status. outcome_of status ≡ Refused refusal };

    fn from(refusal: ZoneRefusal) -> ZoneStatus {
        match refusal {
            Refusal::BadHex => ZoneStatus::BadHex,
            Refusal::Short { message } => ZoneStatus::Short { message },
            Refusal::Item {
                message,
                section,
                index,
            } => ZoneStatus::Item {
                message,
                section,
                index,
            },
            Refusal::Own(ZoneReason::NoSoa) => ZoneStatus::NoSoa,
        }
    }
}

impl From<Outcome<ZoneRefusal>> for ZoneStatus {
    ghost use Rattle.std.specs.Prelude.{◌≡◌};
    ghost use Rattle.dns_zone.specs.Texts.{outcome_of};

    ghost from_gives = { λ outcome status. outcome_of status ≡ outcome };

    fn from(outcome: Outcome<ZoneRefusal>) -> ZoneStatus {
        match outcome {
            Outcome::Done => ZoneStatus::Done,
            Outcome::Usage => ZoneStatus::Usage,
            Outcome::TooLong => ZoneStatus::TooLong,
            Outcome::Refused(refusal) => ZoneStatus::from(refusal),
            Outcome::ReadFault => ZoneStatus::ReadFault,
            Outcome::WriteFault => ZoneStatus::WriteFault,
            Outcome::Memory => ZoneStatus::Memory,
        }
    }
}

impl ZoneStatus {
    ghost use Rattle.std.specs.Prelude.{◌≡◌};
    ghost use Rattle.dns_zone.specs.Texts.{code_of};

    /// The code that a process ends with: those of `run` for the same statuses, and 10.
    pub fn code(&self) -> u8
        ensures { result ≡ code_of self.now }
    {
        match self {
            ZoneStatus::Done => 0,
            ZoneStatus::Short { .. } => 1,
            ZoneStatus::Item { .. } => 2,
            ZoneStatus::BadHex => 3,
            ZoneStatus::TooLong => 4,
            ZoneStatus::Usage => 5,
            ZoneStatus::ReadFault => 6,
            ZoneStatus::WriteFault => 7,
            ZoneStatus::Memory => 8,
            ZoneStatus::NoSoa => 10,
        }
    }
}
