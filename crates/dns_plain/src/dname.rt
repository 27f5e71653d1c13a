//! Redirected subtrees.

ghost use Rattle.std.specs.Prelude.{◌≡◌, ◌≤◌, ◌<◌, ◌^◌, ℕ, List, [], ◌∷◌, length, map, take, Option, Some, IfOk, ⊤};
ghost use Rattle.dns_wire.specs.Building.{Builds};
ghost use Rattle.dns_wire.specs.Compression.{FitsIn};
ghost use Rattle.dns_wire.specs.InMessage.{BuildsIn};
ghost use Rattle.dns_wire.specs.Layout.{octets_writes};
ghost use Rattle.dns_wire.specs.Reading.{Gives, all_of, all_at};
ghost use Rattle.dns_record.specs.Canonical.{ranked_cmp};
ghost use Rattle.dns_record.specs.Fields.{Field, fields_octets, canonical_octets};
ghost use Rattle.dns_record.specs.Kinds.{fields_of, no_name};
ghost use Rattle.dns_record.specs.DataLemmas.{uncompressed_leave};
ghost use Rattle.dns_record.specs.Formats.{rdata_format};
ghost use Rattle.dns_record.specs.Whole.{octets_layout, octets_match};
ghost use Rattle.dns_record.proofs.Sizes.{canonical_long};
ghost use Rattle.dns_plain.specs.Types.{dname_fields};

use dns_name::{CanonicalName, Lowercased, Name};
use dns_record::{CanonicalRecordData, DataOfType, RType};
use dns_wire::{
    BuildBytes, BuildInMessage, NameCompressor, ParseError, ReadPlainValue, SplitBytes,
    TruncationError, build_whole,
};
use std::cmp::Ordering;

/// The name under which everything below the owner is (RFC 6672 section 2.1).
#[derive(Clone, Copy, Debug, PartialEq, Eq, PartialOrd, Ord, Hash)]
pub struct DName<'a> {
    /// The target, whose name is never compressed.
    pub name: Name<'a>,
}

impl<'a> DName<'a> {
    /// The data that lead to this name (RFC 6672 section 2.1).
    pub fn new(target: Name<'a>) -> DName<'a>
        ensures { result.name ≡ target.entry }
    {
        DName { name: target }
    }
}

impl<'a> ReadPlainValue<'a> for DName<'a> {
    ghost Seen = { List Field };

    ghost seen = { dname_fields };

    ghost reads = { fields_of no_name (rdata_format 39) };

    ghost leaves_rest = { uncompressed_leave (rdata_format 39) };

    fn read_plain(bytes: &'a [u8]) -> Result<(DName<'a>, &'a [u8]), ParseError> {
        let (name, rest) = Name::split_bytes(bytes)?;
        let value = DName { name };
        Ok((value, rest))
    }
}

impl<'a> DataOfType<'a> for DName<'a> {
    ghost number = { 39 };

    fn rtype() -> RType
        ensures { result.code.value ≡ 39 }
    {
        RType::DNAME
    }
}

impl BuildBytes for DName<'_> {
    ghost octets = { λ v. fields_octets (dname_fields v) };

    fn build_at(&self, bytes: &mut [u8], start: usize) -> Result<usize, TruncationError> {
        (&self.name, ()).build_at(bytes, start)
    }

    /// The number of octets, from 1 to 255.
    fn built_bytes_size(&self) -> usize
        ensures size { result ≡ length (fields_octets (dname_fields self.now)) }
        ensures short { result ≤ 255 }
    {
        self.name.built_bytes_size()
    }
}

/// Uncompressed, with a part for each field.
impl BuildInMessage for DName<'_> {
    ghost writes = { λ v. octets_writes (fields_octets (dname_fields v)) };

    ghost layout = { λ v. Some (octets_layout (dname_fields v)) };

    ghost layout_matches = { λ v. octets_match (dname_fields v) };

    fn build_in_message(
        &self,
        contents: &mut [u8],
        start: usize,
        compressor: &mut NameCompressor,
    ) -> Result<usize, TruncationError> {
        build_whole(self, contents, start, compressor)
    }
}

impl CanonicalRecordData for DName<'_> {
    ghost canonical = { λ v. canonical_octets 39 (dname_fields v) };

    ghost as_long = { λ v. canonical_long 39 (dname_fields v) };

    fn build_canonical_at(&self, bytes: &mut [u8], start: usize) -> Result<usize, TruncationError> {
        let name = Lowercased { name: &self.name };
        (name, ()).build_at(bytes, start)
    }

    fn cmp_canonical(&self, other: &Self) -> Ordering {
        self.name.cmp_lowercase_composed(&other.name)
    }
}
