//! Flags of hashed owners.

ghost use Rattle.dns_wire.specs.ReadingLemmas.{octet_leaves};
ghost use Rattle.std.specs.Prelude.{◌≡◌, ◌≢◌, ◌↔◌, ◌∷◌, if◌then◌else◌, ℕ, [], None, IsTrue, ⊤};
ghost use Rattle.std.specs.Int.{bit_at};
ghost use Rattle.dns_wire.specs.Layout.{octets_writes};
ghost use Rattle.dns_wire.specs.Reading.{octet};
ghost use Rattle.dns_nsec.specs.Flags.{nsec3_flag_bits};

use dns_num::octet_with_bit;
use dns_wire::{
    BuildBytes, BuildInMessage, NameCompressor, ParseError, ReadPlainValue, SplitBytes,
    TruncationError, build_whole,
};

/// The place of the bit of names without security between owners, counted from the lowest.
const OPT_OUT: u32 = 0;

/// Flags of hashed owners: one octet on the wire (RFC 5155 section 3.1.2).
#[derive(Clone, Copy, Debug, PartialEq, Eq, Hash, Default)]
pub struct Nsec3Flags {
    bits: u8,
}

impl Nsec3Flags {
    /// The 8 bits.
    pub fn bits(&self) -> u8
        ensures { result ≡ nsec3_flag_bits self.now }
    {
        self.bits
    }

    /// Whether bit 0, the last, is 1: names without security may be between two owners (RFC 5155
    /// section 3.1.2.1).
    pub fn is_optout(&self) -> bool
        ensures { IsTrue result ↔ (bit_at (nsec3_flag_bits self.now) 0 ≡ 1) }
    {
        self.bits >> OPT_OUT & 1 == 1
    }

    /// The flags with bit 0 as given. Every other bit stays.
    pub fn set_optout(self, value: bool) -> Nsec3Flags
        ensures set { bit_at (nsec3_flag_bits result) 0 ≡ (if value then 1 else 0) }
        ensures others { (i : ℕ) → i ≢ 0 → bit_at (nsec3_flag_bits result) i ≡ bit_at (nsec3_flag_bits self) i }
    {
        Nsec3Flags {
            bits: octet_with_bit(self.bits, OPT_OUT, value),
        }
    }
}

impl<'a> ReadPlainValue<'a> for Nsec3Flags {
    ghost Seen = { ℕ };

    ghost seen = { nsec3_flag_bits };

    ghost reads = { octet };

    ghost leaves_rest = { octet_leaves };

    fn read_plain(bytes: &'a [u8]) -> Result<(Nsec3Flags, &'a [u8]), ParseError> {
        let (bits, rest) = u8::split_bytes(bytes)?;
        Ok((Nsec3Flags { bits }, rest))
    }
}

impl BuildBytes for Nsec3Flags {
    ghost octets = { λ v. nsec3_flag_bits v ∷ [] };

    fn build_at(&self, bytes: &mut [u8], start: usize) -> Result<usize, TruncationError> {
        self.bits.build_at(bytes, start)
    }

    fn built_bytes_size(&self) -> usize
        ensures { result ≡ 1 }
    {
        1
    }
}

/// Whole, with no name in it.
impl BuildInMessage for Nsec3Flags {
    ghost writes = { λ v. octets_writes (nsec3_flag_bits v ∷ []) };

    ghost layout_matches = { λ _. tt };

    fn build_in_message(
        &self,
        contents: &mut [u8],
        start: usize,
        compressor: &mut NameCompressor,
    ) -> Result<usize, TruncationError> {
        build_whole(self, contents, start, compressor)
    }
}
