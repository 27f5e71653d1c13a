//! The flags of an EDNS record.

ghost use Rattle.dns_wire.specs.ReadingLemmas.{number_leaves};
ghost use Rattle.std.specs.Prelude.{◌≡◌, ◌≢◌, ◌↔◌, ℕ, [], None, IsTrue, if◌then◌else◌, ⊤};
ghost use Rattle.std.specs.Int.{w16, bit_at, to_be_bytes};
ghost use Rattle.dns_wire.specs.Layout.{octets_writes};
ghost use Rattle.dns_wire.specs.Reading.{number};
ghost use Rattle.dns_edns.specs.Flags.{flag_bits};

use dns_num::U16;
use dns_wire::{
    BuildBytes, BuildInMessage, NameCompressor, ParseError, ReadPlainValue, SplitBytes,
    TruncationError, build_whole,
};

/// The place of the bit DO, counted from the lowest (RFC 3225 section 3).
const DNSSEC_OK: u32 = 15;

/// The flags of an EDNS record: 16 bits, two octets on the wire (RFC 6891 section 6.1.4).
#[derive(Clone, Copy, Debug, Default, PartialEq, Eq, Hash)]
pub struct EdnsFlags {
    bits: U16,
}

impl EdnsFlags {
    /// All the bits as a number.
    pub fn bits(&self) -> u16
        ensures { result ≡ flag_bits self.now }
    {
        self.bits.get()
    }

    /// Whether the sender takes records of DNSSEC: the bit DO, which counts 32,768 (RFC 3225 section 3).
    pub fn is_dnssec_ok(&self) -> bool
        ensures { IsTrue result ↔ (bit_at (flag_bits self.now) 15 ≡ 1) }
    {
        self.bits.get() >> DNSSEC_OK & 1 == 1
    }

    /// The flags with the bit DO as given. Every other bit stays.
    pub fn set_dnssec_ok(self, value: bool) -> EdnsFlags
        ensures set { bit_at (flag_bits result) 15 ≡ (if value then 1 else 0) }
        ensures others { (i : ℕ) → i ≢ 15 → bit_at (flag_bits result) i ≡ bit_at (flag_bits self) i }
    {
        EdnsFlags {
            bits: self.bits.with_bit(DNSSEC_OK, value),
        }
    }
}

impl<'a> ReadPlainValue<'a> for EdnsFlags {
    ghost Seen = { ℕ };

    ghost seen = { flag_bits };

    ghost reads = { number w16 };

    ghost leaves_rest = { number_leaves w16 };

    fn read_plain(bytes: &'a [u8]) -> Result<(EdnsFlags, &'a [u8]), ParseError> {
        let (bits, rest) = U16::split_bytes(bytes)?;
        Ok((EdnsFlags { bits }, rest))
    }
}

impl BuildBytes for EdnsFlags {
    ghost octets = { λ v. to_be_bytes w16 (flag_bits v) };

    fn build_at(&self, bytes: &mut [u8], start: usize) -> Result<usize, TruncationError> {
        self.bits.build_at(bytes, start)
    }

    fn built_bytes_size(&self) -> usize {
        self.bits.built_bytes_size()
    }
}

/// Whole, with no name in it.
impl BuildInMessage for EdnsFlags {
    ghost writes = { λ v. octets_writes (to_be_bytes w16 (flag_bits v)) };

    ghost layout_matches = { λ _. tt };

    fn build_in_message(
        &self,
        contents: &mut [u8],
        start: usize,
        compressor: &mut NameCompressor,
    ) -> Result<usize, TruncationError> {
        build_whole(self, contents, start, compressor)
    }
}
