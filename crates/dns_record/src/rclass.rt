//! Classes of records.

ghost use Rattle.dns_wire.specs.ReadingLemmas.{number_leaves};
ghost use Rattle.std.specs.Prelude.{◌≡◌, ℕ, [], None, Some, ⊤, length};
ghost use Rattle.std.specs.Int.{w16, to_be_bytes};
ghost use Rattle.dns_wire.specs.Layout.{octets_writes};
ghost use Rattle.dns_wire.specs.Reading.{number};
ghost use Rattle.dns_record.specs.CodeTexts.{class_text};

use dns_num::U16;
use dns_wire::{
    BuildBytes, BuildInMessage, NameCompressor, ParseError, ReadPlainValue, SplitBytes,
    TruncationError, build_whole,
};
use std::fmt;

/// The class of a record: two octets on the wire (RFC 1035 section 3.2.4).
#[derive(Clone, Copy, Debug, PartialEq, Eq, PartialOrd, Ord, Hash)]
pub struct RClass {
    /// The number.
    pub code: U16,
}

impl RClass {
    /// The internet (RFC 1035 section 3.2.4).
    pub const IN: RClass = RClass {
        code: U16 { value: 1 },
    };

    /// CHAOS (RFC 1035 section 3.2.4).
    pub const CH: RClass = RClass {
        code: U16 { value: 3 },
    };
}

impl From<u16> for RClass {
    ghost from_gives = { λ plain v. v.code.value ≡ plain };

    fn from(value: u16) -> RClass {
        RClass {
            code: U16 { value },
        }
    }
}

impl From<RClass> for u16 {
    ghost from_gives = { λ v plain. plain ≡ v.code.value };

    fn from(value: RClass) -> u16 {
        value.code.get()
    }
}

impl<'a> ReadPlainValue<'a> for RClass {
    ghost Seen = { ℕ };

    ghost seen = { λ v. v.code.value };

    ghost reads = { number w16 };

    ghost leaves_rest = { number_leaves w16 };

    fn read_plain(bytes: &'a [u8]) -> Result<(RClass, &'a [u8]), ParseError> {
        let (code, rest) = U16::split_bytes(bytes)?;
        Ok((RClass { code }, rest))
    }
}

impl BuildBytes for RClass {
    ghost octets = { λ v. to_be_bytes w16 v.code.value };

    fn build_at(&self, bytes: &mut [u8], start: usize) -> Result<usize, TruncationError> {
        self.code.build_at(bytes, start)
    }

    fn built_bytes_size(&self) -> usize
        ensures size { result ≡ length (to_be_bytes w16 self.now.code.value) }
        ensures fixed { result ≡ 2 }
    {
        self.code.built_bytes_size()
    }
}

/// Whole, with no name in it.
impl BuildInMessage for RClass {
    ghost writes = { λ v. octets_writes (to_be_bytes w16 v.code.value) };

    ghost layout_matches = { λ _. tt };

    fn build_in_message(
        &self,
        contents: &mut [u8],
        start: usize,
        compressor: &mut NameCompressor,
    ) -> Result<usize, TruncationError> {
        build_whole(self, contents, start, compressor)
    }
}

impl fmt::Display for RClass {
    ghost output = { λ v. Some (class_text v.code.value) };

    /// `IN`, `CH`, or `CLASS` and the number in decimal (RFC 3597 section 5).
    #[tactic(auto, unfolding(crate::specs::CodeTexts::class_text))]
    fn fmt<W: fmt::Write>(&self, f: &mut fmt::Formatter<W>) -> fmt::Result {
        match *self {
            RClass::IN => f.write_str("IN"),
            RClass::CH => f.write_str("CH"),
            RClass { code } => write!(f, "CLASS{code}"),
        }
    }
}
