//! What a key is for.

ghost use Rattle.dns_wire.specs.ReadingLemmas.{number_leaves};
ghost use Rattle.std.specs.Prelude.{◌≡◌, ◌≢◌, ◌<◌, ◌^◌, ◌↔◌, ℕ, [], None, IsTrue, if◌then◌else◌, ⊤};
ghost use Rattle.std.specs.Int.{w16, bit_at, to_be_bytes};
ghost use Rattle.std.specs.Ordering.{nat_cmp};
ghost use Rattle.dns_wire.specs.Layout.{octets_writes};
ghost use Rattle.dns_wire.specs.Reading.{number};
ghost use Rattle.dns_sec.specs.Flags.{key_flag_bits};

use dns_num::U16;
use dns_wire::{
    BuildBytes, BuildInMessage, NameCompressor, ParseError, ReadPlainValue, SplitBytes,
    TruncationError, build_whole,
};
use std::cmp::Ordering;

/// The place of the bit of a key of a zone, counted from the lowest.
const ZONE_KEY: u32 = 8;

/// The place of the bit of a key that others are to trust first.
const SECURE_ENTRY_POINT: u32 = 0;

/// What a key is for: 16 bits, two octets on the wire (RFC 4034 section 2.1.1).
#[derive(Clone, Copy, Debug, Default, PartialEq, Eq, Hash)]
pub struct DNSKeyFlags {
    bits: U16,
}

impl DNSKeyFlags {
    /// All the bits as a number.
    pub fn bits(&self) -> u16
        ensures { result ≡ key_flag_bits self.now }
    {
        self.bits.get()
    }

    /// Whether it is a key of the zone that owns it, which may sign its records: the bit that counts 256 (RFC
    /// 4034 section 2.1.1).
    pub fn is_zone_key(&self) -> bool
        ensures { IsTrue result ↔ (bit_at (key_flag_bits self.now) 8 ≡ 1) }
    {
        self.bits.get() >> ZONE_KEY & 1 == 1
    }

    /// Whether it is meant to be the key that others trust first: the bit that counts 1 (RFC 3757 section 2).
    pub fn is_secure_entry_point(&self) -> bool
        ensures { IsTrue result ↔ (bit_at (key_flag_bits self.now) 0 ≡ 1) }
    {
        self.bits.get() >> SECURE_ENTRY_POINT & 1 == 1
    }

    /// The flags with the bit that counts 256 as given. Every other bit stays.
    pub fn set_zone_key(self, value: bool) -> DNSKeyFlags
        ensures set { bit_at (key_flag_bits result) 8 ≡ (if value then 1 else 0) }
        ensures others { (i : ℕ) → i ≢ 8 → bit_at (key_flag_bits result) i ≡ bit_at (key_flag_bits self) i }
    {
        DNSKeyFlags {
            bits: self.bits.with_bit(ZONE_KEY, value),
        }
    }

    /// The flags with the bit that counts 1 as given. Every other bit stays.
    pub fn set_secure_entry_point(self, value: bool) -> DNSKeyFlags
        ensures set { bit_at (key_flag_bits result) 0 ≡ (if value then 1 else 0) }
        ensures others { (i : ℕ) → i ≢ 0 → bit_at (key_flag_bits result) i ≡ bit_at (key_flag_bits self) i }
    {
        DNSKeyFlags {
            bits: self.bits.with_bit(SECURE_ENTRY_POINT, value),
        }
    }
}

impl<'a> ReadPlainValue<'a> for DNSKeyFlags {
    ghost Seen = { ℕ };

    ghost seen = { key_flag_bits };

    ghost reads = { number w16 };

    ghost leaves_rest = { number_leaves w16 };

    fn read_plain(bytes: &'a [u8]) -> Result<(DNSKeyFlags, &'a [u8]), ParseError> {
        let (bits, rest) = U16::split_bytes(bytes)?;
        Ok((DNSKeyFlags { bits }, rest))
    }
}

impl BuildBytes for DNSKeyFlags {
    ghost octets = { λ v. to_be_bytes w16 (key_flag_bits v) };

    fn build_at(&self, bytes: &mut [u8], start: usize) -> Result<usize, TruncationError> {
        self.bits.build_at(bytes, start)
    }

    fn built_bytes_size(&self) -> usize
        ensures { result ≡ 2 }
    {
        2
    }
}

/// Whole, with no name in it.
impl BuildInMessage for DNSKeyFlags {
    ghost writes = { λ v. octets_writes (to_be_bytes w16 (key_flag_bits v)) };

    ghost layout_matches = { λ _. tt };

    fn build_in_message(
        &self,
        contents: &mut [u8],
        start: usize,
        compressor: &mut NameCompressor,
    ) -> Result<usize, TruncationError> {
        build_whole(self, contents, start, compressor)
    }
}
