//! Why a text has no normal form that is printed.

use dns_command::{OneMessage, Reason, Refusal};

/// Why a valid message has no normal form.
#[derive(Clone, Copy, Debug, PartialEq, Eq)]
pub enum NormalReason {
    /// The normal form has more than 65,535 octets.
    TooLarge,
}

impl Reason for NormalReason {
    ghost use Rattle.dns_normal.specs.Texts.{reason_words};

    ghost words = { reason_words };

    fn words(&self) -> &'static str {
        match self {
            NormalReason::TooLarge => "too large",
        }
    }
}

/// Why a text has no normal form that is printed.
pub type NormalRefusal = Refusal<OneMessage, NormalReason>;
