//! The next name.

ghost use Rattle.std.specs.Prelude.{◌≡◌, ◌≤◌, ◌<◌, ◌^◌, ℕ, List, [], ◌∷◌, length, map, take, Option, Some, IfOk, ⊤};
ghost use Rattle.std.specs.Int.{w16};
ghost use Rattle.dns_wire.specs.Building.{Builds};
ghost use Rattle.dns_wire.specs.Compression.{FitsIn};
ghost use Rattle.dns_wire.specs.InMessage.{BuildsIn};
ghost use Rattle.dns_wire.specs.Layout.{octets_writes};
ghost use Rattle.dns_wire.specs.Reading.{Gives, all_of, all_at, plain_at};
ghost use Rattle.dns_record.specs.Canonical.{ranked_cmp};
ghost use Rattle.dns_record.specs.Fields.{Field, fields_octets, canonical_octets};
ghost use Rattle.dns_record.specs.Kinds.{fields_of, no_name};
ghost use Rattle.dns_record.specs.DataLemmas.{uncompressed_leave, uncompressed_end};
ghost use Rattle.dns_record.specs.Formats.{rdata_format};
ghost use Rattle.dns_record.specs.Whole.{octets_layout, octets_match};
ghost use Rattle.dns_record.proofs.Sizes.{canonical_long};
ghost use Rattle.dns_nsec.specs.Types.{nsec_fields};

use crate::bitmaps::TypeBitmaps;
use dns_name::{CanonicalName, Name};
use dns_record::{CanonicalRecordData, DataOfType, RType};
use dns_wire::{
    BuildBytes, BuildInMessage, NameCompressor, ParseBytes, ParseError, ParseMessageBytes,
    SplitBytes, TruncationError, build_whole, parse_without_compression, whole,
};
use std::cmp::Ordering;

/// The next name of a zone, and the types at the owner (RFC 4034 section 4.1).
#[derive(Clone, Copy, Debug, PartialEq, Eq, Hash)]
pub struct Nsec<'a> {
    /// The next name in canonical order.
    pub next: Name<'a>,
    /// The types at the owner.
    pub types: TypeBitmaps<'a>,
}

impl<'a> Nsec<'a> {
    /// The next name, and the types at the owner. Data without a type are written, but not read.
    pub fn new(next: Name<'a>, types: TypeBitmaps<'a>) -> Nsec<'a>
        ensures next { result.next ≡ next.entry }
        ensures types { result.types ≡ types.entry }
    {
        Nsec { next, types }
    }

    /// The types at the owner.
    pub fn types(&self) -> TypeBitmaps<'a>
        ensures { result ≡ self.now.types }
    {
        self.types
    }

    /// The next name.
    pub fn next_name(&self) -> Name<'a>
        ensures { result ≡ self.now.next }
    {
        self.next
    }
}

impl<'a> ParseBytes<'a> for Nsec<'a> {
    ghost Seen = { List Field };

    ghost seen = { nsec_fields };

    ghost reads = { fields_of no_name (rdata_format 47) };

    ghost reads_at = { plain_at (fields_of no_name (rdata_format 47)) };

    ghost leaves_rest = { uncompressed_leave (rdata_format 47) };

    ghost ends_within = { uncompressed_end (rdata_format 47) };

    /// Data without a window are `ParseError`.
    fn parse_bytes(bytes: &'a [u8]) -> Result<Nsec<'a>, ParseError> {
        let (next, rest) = Name::split_bytes(bytes)?;
        if rest.is_empty() {
            return Err(ParseError);
        }
        let types = TypeBitmaps::parse_bytes(rest)?;
        Ok(Nsec { next, types })
    }
}

impl<'a> ParseMessageBytes<'a> for Nsec<'a> {
    fn parse_message_bytes(contents: &'a [u8], start: usize) -> Result<Nsec<'a>, ParseError> {
        parse_without_compression(contents, start)
    }
}

impl<'a> DataOfType<'a> for Nsec<'a> {
    ghost number = { 47 };

    fn rtype() -> RType
        ensures { result.code.value ≡ 47 }
    {
        RType::NSEC
    }
}

impl BuildBytes for Nsec<'_> {
    ghost octets = { λ v. fields_octets (nsec_fields v) };

    fn build_at(&self, bytes: &mut [u8], start: usize) -> Result<usize, TruncationError> {
        (&self.next, (&self.types, ())).build_at(bytes, start)
    }

    fn built_bytes_size(&self) -> usize {
        self.next.built_bytes_size() + self.types.built_bytes_size()
    }
}

/// Uncompressed, with a part for each field.
impl BuildInMessage for Nsec<'_> {
    ghost writes = { λ v. octets_writes (fields_octets (nsec_fields v)) };

    ghost layout = { λ v. Some (octets_layout (nsec_fields v)) };

    ghost layout_matches = { λ v. octets_match (nsec_fields v) };

    fn build_in_message(
        &self,
        contents: &mut [u8],
        start: usize,
        compressor: &mut NameCompressor,
    ) -> Result<usize, TruncationError> {
        build_whole(self, contents, start, compressor)
    }
}

impl CanonicalRecordData for Nsec<'_> {
    ghost canonical = { λ v. canonical_octets 47 (nsec_fields v) };

    ghost as_long = { λ v. canonical_long 47 (nsec_fields v) };

    fn build_canonical_at(&self, bytes: &mut [u8], start: usize) -> Result<usize, TruncationError> {
        self.build_at(bytes, start)
    }

    fn cmp_canonical(&self, other: &Self) -> Ordering {
        let order = self.next.cmp_composed(&other.next);
        if order.is_ne() {
            return order;
        }
        self.types.slice.cmp(other.types.slice)
    }
}
