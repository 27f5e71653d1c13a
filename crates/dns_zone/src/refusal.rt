//! Why messages of a zone are refused.

use dns_command::{Reason, Refusal};

/// The most octets of the text of a zone.
pub const ZONE_TEXT_LIMIT: usize = 4_194_304;

/// Why valid messages have no digest of a zone.
#[derive(Clone, Copy, Debug, PartialEq, Eq)]
pub enum ZoneReason {
    /// The messages have no SOA record of the apex.
    NoSoa,
}

impl Reason for ZoneReason {
    ghost use Rattle.dns_zone.specs.Texts.{reason_words};

    ghost words = { reason_words };

    fn words(&self) -> &'static str {
        match self {
            ZoneReason::NoSoa => "no soa",
        }
    }
}

/// Why a zone that is given as messages has no digest.
pub type ZoneRefusal = Refusal<u32, ZoneReason>;
