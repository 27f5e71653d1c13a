//! How `normal` ends.

use crate::refusal::{NormalReason, NormalRefusal};
use dns_command::{Outcome, Refusal};

/// How `normal` ends.
#[derive(Clone, Copy, Debug, PartialEq, Eq)]
pub enum NormalStatus {
    /// Everything was written and flushed.
    Done,
    /// The message has fewer than 12 octets.
    Short,
    /// This item is the first of the message that can't be read. Sections are numbered 0 to 3 (question,
    /// answer, authority, additional), and items from 0 in each.
    Item { section: u8, index: u16 },
    /// The text is not pairs of hexadecimal digits.
    BadHex,
    /// The text has more octets than the limit.
    TooLong,
    /// The words are no command.
    Usage,
    /// The source failed.
    ReadFault,
    /// The sink failed.
    WriteFault,
    /// Memory ran out.
    Memory,
    /// The normal form has more than 65,535 octets.
    TooLarge,
}

/// The status of a text that is refused.
impl From<NormalRefusal> for NormalStatus {
    ghost use Rattle.std.specs.Prelude.{◌≡◌};
    ghost use Rattle.dns_command.specs.declared.outcome.Outcome.TheVariants.{Refused};
    ghost use Rattle.dns_normal.specs.Texts.{outcome_of};

    ghost from_gives = { λ refusal status. outcome_of status ≡ Refused refusal };

    fn from(refusal: NormalRefusal) -> NormalStatus {
        match refusal {
            Refusal::BadHex => NormalStatus::BadHex,
            Refusal::Short { .. } => NormalStatus::Short,
            Refusal::Item { section, index, .. } => NormalStatus::Item { section, index },
            Refusal::Own(NormalReason::TooLarge) => NormalStatus::TooLarge,
        }
    }
}

impl From<Outcome<NormalRefusal>> for NormalStatus {
    ghost use Rattle.std.specs.Prelude.{◌≡◌};
    ghost use Rattle.dns_normal.specs.Texts.{outcome_of};

    ghost from_gives = { λ outcome status. outcome_of status ≡ outcome };

    fn from(outcome: Outcome<NormalRefusal>) -> NormalStatus {
        match outcome {
            Outcome::Done => NormalStatus::Done,
            Outcome::Usage => NormalStatus::Usage,
            Outcome::TooLong => NormalStatus::TooLong,
            Outcome::Refused(refusal) => NormalStatus::from(refusal),
            Outcome::ReadFault => NormalStatus::ReadFault,
            Outcome::WriteFault => NormalStatus::WriteFault,
            Outcome::Memory => NormalStatus::Memory,
        }
    }
}

impl NormalStatus {
    ghost use Rattle.std.specs.Prelude.{◌≡◌};
    ghost use Rattle.dns_normal.specs.Texts.{code_of};

    /// The code that a process ends with: those of `run` for the same statuses, and 11.
    pub fn code(&self) -> u8
        ensures { result ≡ code_of self.now }
    {
        match self {
            NormalStatus::Done => 0,
            NormalStatus::Short => 1,
            NormalStatus::Item { .. } => 2,
            NormalStatus::BadHex => 3,
            NormalStatus::TooLong => 4,
            NormalStatus::Usage => 5,
            NormalStatus::ReadFault => 6,
            NormalStatus::WriteFault => 7,
            NormalStatus::Memory => 8,
            NormalStatus::TooLarge => 11,
        }
    }
}
