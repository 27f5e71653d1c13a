//! Hosts.

ghost use Rattle.std.specs.Prelude.{◌≡◌, ◌≤◌, ◌<◌, ◌^◌, ℕ, List, [], ◌∷◌, length, map, take, Option, Some, IfOk, ⊤};
ghost use Rattle.std.specs.Ordering.{nat_cmp, ordering_then};
ghost use Rattle.std.specs.Cmp.Lexicographic.{slice_cmp};
ghost use Rattle.dns_wire.specs.Building.{Builds};
ghost use Rattle.dns_wire.specs.Compression.{FitsIn};
ghost use Rattle.dns_wire.specs.InMessage.{BuildsIn};
ghost use Rattle.dns_wire.specs.Layout.{octets_writes};
ghost use Rattle.dns_wire.specs.Reading.{Gives, all_of, all_at};
ghost use Rattle.dns_record.specs.Canonical.{ranked_cmp};
ghost use Rattle.dns_record.specs.CharStrs.{octets_of};
ghost use Rattle.dns_record.specs.Fields.{Field, fields_octets, canonical_octets};
ghost use Rattle.dns_record.specs.Kinds.{fields_of, no_name};
ghost use Rattle.dns_record.specs.DataLemmas.{uncompressed_leave};
ghost use Rattle.dns_record.specs.Formats.{rdata_format};
ghost use Rattle.dns_record.specs.Whole.{octets_layout, octets_match};
ghost use Rattle.dns_record.proofs.Sizes.{canonical_long};
ghost use Rattle.dns_plain.specs.Types.{hinfo_fields};

use dns_record::{CanonicalRecordData, CharStr, DataOfType, RType};
use dns_wire::{
    BuildBytes, BuildInMessage, NameCompressor, ParseError, ReadPlainValue, SplitBytes,
    TruncationError, build_whole,
};
use std::cmp::Ordering;

/// The processor and the system of a host (RFC 1035 section 3.3.2).
#[derive(Clone, Copy, Debug, PartialEq, Eq, Hash)]
pub struct HInfo<'a> {
    /// The processor, of at most 255 octets.
    pub cpu: CharStr<'a>,
    /// The operating system, of at most 255 octets.
    pub os: CharStr<'a>,
}

impl<'a> ReadPlainValue<'a> for HInfo<'a> {
    ghost Seen = { List Field };

    ghost seen = { hinfo_fields };

    ghost reads = { fields_of no_name (rdata_format 13) };

    ghost leaves_rest = { uncompressed_leave (rdata_format 13) };

    fn read_plain(bytes: &'a [u8]) -> Result<(HInfo<'a>, &'a [u8]), ParseError> {
        let (cpu, rest) = CharStr::split_bytes(bytes)?;
        let (os, rest) = CharStr::split_bytes(rest)?;
        let value = HInfo { cpu, os };
        Ok((value, rest))
    }
}

impl<'a> DataOfType<'a> for HInfo<'a> {
    ghost number = { 13 };

    fn rtype() -> RType
        ensures { result.code.value ≡ 13 }
    {
        RType::HINFO
    }
}

impl BuildBytes for HInfo<'_> {
    ghost octets = { λ v. fields_octets (hinfo_fields v) };

    fn build_at(&self, bytes: &mut [u8], start: usize) -> Result<usize, TruncationError> {
        (&self.cpu, (&self.os, ())).build_at(bytes, start)
    }

    /// The number of octets, from 2 to 512.
    fn built_bytes_size(&self) -> usize
        ensures size { result ≡ length (fields_octets (hinfo_fields self.now)) }
        ensures short { result ≤ 512 }
    {
        self.cpu.built_bytes_size() + self.os.built_bytes_size()
    }
}

/// Uncompressed, with a part for each field.
impl BuildInMessage for HInfo<'_> {
    ghost writes = { λ v. octets_writes (fields_octets (hinfo_fields v)) };

    ghost layout = { λ v. Some (octets_layout (hinfo_fields v)) };

    ghost layout_matches = { λ v. octets_match (hinfo_fields v) };

    fn build_in_message(
        &self,
        contents: &mut [u8],
        start: usize,
        compressor: &mut NameCompressor,
    ) -> Result<usize, TruncationError> {
        build_whole(self, contents, start, compressor)
    }
}

impl CanonicalRecordData for HInfo<'_> {
    ghost canonical = { λ v. canonical_octets 13 (hinfo_fields v) };

    ghost as_long = { λ v. canonical_long 13 (hinfo_fields v) };

    fn build_canonical_at(&self, bytes: &mut [u8], start: usize) -> Result<usize, TruncationError> {
        self.build_at(bytes, start)
    }

    fn cmp_canonical(&self, other: &Self) -> Ordering {
        match self.cpu.cmp_composed(&other.cpu) {
            Ordering::Equal => self.os.cmp_composed(&other.os),
            decided => decided,
        }
    }
}
