//! Why nothing is printed for a message.

use dns_command::{OneMessage, Reason, Refusal};

/// Why nothing is printed for a valid message.
#[derive(Clone, Copy, Debug, PartialEq, Eq)]
pub enum DenialReason {
    /// The labels field of the signature is more than its owner's labels are.
    TooManyLabels,
    /// The message has no signature of this number.
    NoSignature,
}

impl Reason for DenialReason {
    ghost use Rattle.dns_denial.specs.Texts.{reason_words};

    ghost words = { reason_words };

    fn words(&self) -> &'static str {
        match self {
            DenialReason::TooManyLabels => "too many labels",
            DenialReason::NoSignature => "no signature",
        }
    }
}

/// Why nothing is printed for a text.
pub type DenialRefusal = Refusal<OneMessage, DenialReason>;
