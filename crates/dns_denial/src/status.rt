//! How the commands end.

use crate::refusal::{DenialReason, DenialRefusal};
use dns_command::{Outcome, Refusal};

/// How `hash`, `covers`, `signed` or `keytags` ends.
#[derive(Clone, Copy, Debug, PartialEq, Eq)]
pub enum DenialStatus {
    /// Everything was written and flushed.
    Done,
    /// The message has fewer than 12 octets.
    Short,
    /// This item is the first of the message that can't be read. Sections are numbered 0 to 3 (question,
    /// answer, authority, additional), and items from 0 in each.
    Item { section: u8, index: u16 },
    /// The text is not pairs of hexadecimal digits.
    BadHex,
    /// The text has more octets than the limit.
    TooLong,
    /// The words are no command.
    Usage,
    /// The source failed.
    ReadFault,
    /// The sink failed.
    WriteFault,
    /// Memory ran out.
    Memory,
    /// The labels field of the signature is more than its owner's labels are.
    TooManyLabels,
    /// The message has no signature of this number.
    NoSignature,
}

/// The status of a text that is refused.
impl From<DenialRefusal> for DenialStatus {
    ghost use Rattle.std.specs.Prelude.{◌≡◌};
    ghost use Rattle.dns_command.specs.declared.outcome.Outcome.TheVariants.{Refused};
    ghost use Rattle.dns_denial.specs.Texts.{outcome_of};

    ghost from_gives = { λ refusal status. outcome_of status ≡ Refused refusal };

    fn from(refusal: DenialRefusal) -> DenialStatus {
        match refusal {
            Refusal::BadHex => DenialStatus::BadHex,
            Refusal::Short { .. } => DenialStatus::Short,
            Refusal::Item { section, index, .. } => DenialStatus::Item { section, index },
            Refusal::Own(DenialReason::TooManyLabels) => DenialStatus::TooManyLabels,
            Refusal::Own(DenialReason::NoSignature) => DenialStatus::NoSignature,
        }
    }
}

impl From<Outcome<DenialRefusal>> for DenialStatus {
    ghost use Rattle.std.specs.Prelude.{◌≡◌};
    ghost use Rattle.dns_denial.specs.Texts.{outcome_of};

    ghost from_gives = { λ outcome status. outcome_of status ≡ outcome };

    fn from(outcome: Outcome<DenialRefusal>) -> DenialStatus {
        match outcome {
            Outcome::Done => DenialStatus::Done,
            Outcome::Usage => DenialStatus::Usage,
            Outcome::TooLong => DenialStatus::TooLong,
            Outcome::Refused(refusal) => DenialStatus::from(refusal),
            Outcome::ReadFault => DenialStatus::ReadFault,
            Outcome::WriteFault => DenialStatus::WriteFault,
            Outcome::Memory => DenialStatus::Memory,
        }
    }
}

impl DenialStatus {
    ghost use Rattle.std.specs.Prelude.{◌≡◌};
    ghost use Rattle.dns_denial.specs.Texts.{code_of};

    /// The code that a process ends with: those of `run` for the same statuses, 12 and 13.
    pub fn code(&self) -> u8
        ensures { result ≡ code_of self.now }
    {
        match self {
            DenialStatus::Done => 0,
            DenialStatus::Short => 1,
            DenialStatus::Item { .. } => 2,
            DenialStatus::BadHex => 3,
            DenialStatus::TooLong => 4,
            DenialStatus::Usage => 5,
            DenialStatus::ReadFault => 6,
            DenialStatus::WriteFault => 7,
            DenialStatus::Memory => 8,
            DenialStatus::TooManyLabels => 12,
            DenialStatus::NoSignature => 13,
        }
    }
}
