//! Digests of keys that a child zone asks its parent to publish.

ghost use Rattle.std.specs.Prelude.{◌≡◌, ◌≤◌, ◌<◌, ◌^◌, ℕ, List, [], ◌∷◌, length, take, Option, Some, IfOk, ⊤};
ghost use Rattle.dns_wire.specs.Building.{Builds};
ghost use Rattle.dns_wire.specs.Compression.{FitsIn};
ghost use Rattle.dns_wire.specs.InMessage.{BuildsIn};
ghost use Rattle.dns_wire.specs.Layout.{octets_writes};
ghost use Rattle.dns_wire.specs.Reading.{Gives, all_of, all_at, plain_at};
ghost use Rattle.dns_record.specs.Canonical.{ranked_cmp};
ghost use Rattle.dns_record.specs.Fields.{Field, fields_octets, canonical_octets};
ghost use Rattle.dns_record.specs.Kinds.{fields_of, no_name};
ghost use Rattle.dns_record.specs.DataLemmas.{uncompressed_leave, uncompressed_end};
ghost use Rattle.dns_record.specs.Formats.{rdata_format};
ghost use Rattle.dns_record.specs.Whole.{octets_layout, octets_match};
ghost use Rattle.dns_record.proofs.Sizes.{canonical_long};
ghost use Rattle.dns_sec.specs.Types.{cds_fields, as_ds, as_cds};

use crate::digest_type::DigestType;
use crate::ds::Ds;
use crate::sec_alg::SecAlg;
use dns_num::U16;
use dns_record::{CanonicalRecordData, DataOfType, RType};
use dns_wire::{
    BuildBytes, BuildInMessage, NameCompressor, ParseBytes, ParseError, ParseMessageBytes,
    TruncationError, build_whole, parse_without_compression, whole,
};
use std::cmp::Ordering;

/// A digest of a key that a child zone asks its parent to publish as DS, of the same fields (RFC 7344 section 3.1). The parent is
/// asked to remove all its DS by the data `0 0 0 00` (RFC 8078 section 4).
#[derive(Clone, Copy, Debug, PartialEq, Eq, Hash)]
pub struct Cds<'a> {
    /// The key tag of the key (RFC 4034 appendix B).
    pub keytag: U16,
    /// The algorithm of the key.
    pub algorithm: SecAlg,
    /// How the key is digested.
    pub digest_type: DigestType,
    /// The digest, of any number of octets.
    pub digest: &'a [u8],
}

/// What the parent is asked to publish (RFC 7344 section 3.1).
impl<'a> From<Cds<'a>> for Ds<'a> {
    ghost from_gives = { λ v w. w ≡ as_ds v };

    fn from(value: Cds<'a>) -> Ds<'a> {
        Ds {
            keytag: value.keytag,
            algorithm: value.algorithm,
            digest_type: value.digest_type,
            digest: value.digest,
        }
    }
}

/// What a child zone publishes so that its parent publishes this (RFC 7344 section 3.1).
impl<'a> From<Ds<'a>> for Cds<'a> {
    ghost from_gives = { λ v w. w ≡ as_cds v };

    fn from(value: Ds<'a>) -> Cds<'a> {
        Cds {
            keytag: value.keytag,
            algorithm: value.algorithm,
            digest_type: value.digest_type,
            digest: value.digest,
        }
    }
}

impl<'a> ParseBytes<'a> for Cds<'a> {
    ghost Seen = { List Field };

    ghost seen = { cds_fields };

    ghost reads = { fields_of no_name (rdata_format 59) };

    ghost reads_at = { plain_at (fields_of no_name (rdata_format 59)) };

    ghost leaves_rest = { uncompressed_leave (rdata_format 59) };

    ghost ends_within = { uncompressed_end (rdata_format 59) };

    fn parse_bytes(bytes: &'a [u8]) -> Result<Cds<'a>, ParseError> {
        Ok(Cds::from(Ds::parse_bytes(bytes)?))
    }
}

impl<'a> ParseMessageBytes<'a> for Cds<'a> {
    fn parse_message_bytes(contents: &'a [u8], start: usize) -> Result<Cds<'a>, ParseError> {
        parse_without_compression(contents, start)
    }
}

impl<'a> DataOfType<'a> for Cds<'a> {
    ghost number = { 59 };

    fn rtype() -> RType
        ensures { result.code.value ≡ 59 }
    {
        RType::CDS
    }
}

impl BuildBytes for Cds<'_> {
    ghost octets = { λ v. fields_octets (cds_fields v) };

    fn build_at(&self, bytes: &mut [u8], start: usize) -> Result<usize, TruncationError> {
        Ds::from(*self).build_at(bytes, start)
    }

    fn built_bytes_size(&self) -> usize {
        Ds::from(*self).built_bytes_size()
    }
}

/// Uncompressed, with a part for each field.
impl BuildInMessage for Cds<'_> {
    ghost writes = { λ v. octets_writes (fields_octets (cds_fields v)) };

    ghost layout = { λ v. Some (octets_layout (cds_fields v)) };

    ghost layout_matches = { λ v. octets_match (cds_fields v) };

    fn build_in_message(
        &self,
        contents: &mut [u8],
        start: usize,
        compressor: &mut NameCompressor,
    ) -> Result<usize, TruncationError> {
        build_whole(self, contents, start, compressor)
    }
}

impl CanonicalRecordData for Cds<'_> {
    ghost canonical = { λ v. canonical_octets 59 (cds_fields v) };

    ghost as_long = { λ v. canonical_long 59 (cds_fields v) };

    fn build_canonical_at(&self, bytes: &mut [u8], start: usize) -> Result<usize, TruncationError> {
        self.build_at(bytes, start)
    }

    fn cmp_canonical(&self, other: &Self) -> Ordering {
        Ds::from(*self).cmp_canonical(&Ds::from(*other))
    }
}
