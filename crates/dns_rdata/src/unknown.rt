//! Data of types that have no RDATA format.

ghost use Rattle.std.specs.Prelude.{◌≡◌, ℕ, List, [], ◌∷◌, Some, ⊤};
ghost use Rattle.std.proofs.Common.{refl};
ghost use Rattle.dns_wire.specs.ReadingLemmas.{plain_ends};
ghost use Rattle.dns_wire.specs.Layout.{octets_writes};
ghost use Rattle.dns_wire.specs.Layout.LayoutPart.{OctetsPart};
ghost use Rattle.dns_wire.specs.LayoutLemmas.{part_matches};
ghost use Rattle.dns_wire.specs.Reading.{plain_at};
ghost use Rattle.dns_edns.specs.OptionsLemmas.{everything_leaves};
ghost use Rattle.dns_edns.specs.Options.{everything};

use dns_record::CanonicalRecordData;
use dns_wire::{
    AsBytes, BuildBytes, BuildInMessage, NameCompressor, ParseBytes, ParseError, TruncationError,
    build_whole, put,
};
use std::cmp::Ordering;

/// The data of a record whose type has no RDATA format here, as they are (RFC 3597 section 3).
#[derive(Clone, Copy, Debug, PartialEq, Eq, Hash)]
pub struct UnknownRecordData<'a> {
    /// The octets, of any number.
    pub octets: &'a [u8],
}

impl AsBytes for UnknownRecordData<'_> {
    fn as_bytes(&self) -> &[u8] {
        self.octets
    }
}

/// Any octets.
impl<'a> ParseBytes<'a> for UnknownRecordData<'a> {
    ghost Seen = { List ℕ };

    ghost seen = { λ v. v.octets.now };

    ghost reads = { everything };

    ghost reads_at = { plain_at everything };

    ghost leaves_rest = { everything_leaves };

    ghost ends_within = { plain_ends everything everything_leaves };

    fn parse_bytes(bytes: &'a [u8]) -> Result<UnknownRecordData<'a>, ParseError> {
        Ok(UnknownRecordData { octets: bytes })
    }
}

impl BuildBytes for UnknownRecordData<'_> {
    ghost octets = { λ v. v.octets.now };

    fn build_at(&self, bytes: &mut [u8], start: usize) -> Result<usize, TruncationError> {
        put(self.octets, bytes, start)
    }

    fn built_bytes_size(&self) -> usize {
        self.octets.len()
    }
}

/// Whole, with no name in it.
impl BuildInMessage for UnknownRecordData<'_> {
    ghost writes = { λ v. octets_writes v.octets.now };

    ghost layout = { λ v. Some (OctetsPart v.octets.now ∷ []) };

    ghost layout_matches = { λ v. part_matches (OctetsPart v.octets.now) };

    fn build_in_message(
        &self,
        contents: &mut [u8],
        start: usize,
        compressor: &mut NameCompressor,
    ) -> Result<usize, TruncationError> {
        build_whole(self, contents, start, compressor)
    }
}

/// The octets as they are (RFC 3597 section 7).
impl CanonicalRecordData for UnknownRecordData<'_> {
    ghost canonical = { λ v. v.octets.now };

    ghost as_long = { λ _. refl };

    fn build_canonical_at(&self, bytes: &mut [u8], start: usize) -> Result<usize, TruncationError> {
        put(self.octets, bytes, start)
    }

    fn cmp_canonical(&self, other: &Self) -> Ordering {
        self.octets.cmp(other.octets)
    }
}
