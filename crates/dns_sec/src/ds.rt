//! Digests of keys of a child zone.

ghost use Rattle.std.specs.Prelude.{◌≡◌, ◌≤◌, ◌<◌, ◌^◌, ℕ, List, [], ◌∷◌, length, take, Option, Some, IfOk, ⊤};
ghost use Rattle.dns_wire.specs.Building.{Builds};
ghost use Rattle.dns_wire.specs.Compression.{FitsIn};
ghost use Rattle.dns_wire.specs.InMessage.{BuildsIn};
ghost use Rattle.dns_wire.specs.Layout.{octets_writes};
ghost use Rattle.dns_wire.specs.Reading.{Gives, all_of, all_at, plain_at};
ghost use Rattle.dns_record.specs.Canonical.{ranked_cmp};
ghost use Rattle.dns_record.specs.Fields.{Field, fields_octets, canonical_octets};
ghost use Rattle.dns_record.specs.Kinds.{fields_of, no_name};
ghost use Rattle.dns_record.specs.DataLemmas.{uncompressed_leave, uncompressed_end};
ghost use Rattle.dns_record.specs.Formats.{rdata_format};
ghost use Rattle.dns_record.specs.Whole.{octets_layout, octets_match};
ghost use Rattle.dns_record.proofs.Sizes.{canonical_long};
ghost use Rattle.dns_sec.specs.Types.{ds_fields};

use crate::digest_type::DigestType;
use crate::sec_alg::SecAlg;
use dns_num::U16;
use dns_record::{CanonicalRecordData, DataOfType, RType};
use dns_wire::{
    BuildBytes, BuildInMessage, NameCompressor, ParseBytes, ParseError, ParseMessageBytes,
    SplitBytes, TruncationError, build_whole, parse_without_compression, whole,
};
use std::cmp::Ordering;

/// A digest of a key that signs for a child zone (RFC 4034 section 5.1).
#[derive(Clone, Copy, Debug, PartialEq, Eq, Hash)]
pub struct Ds<'a> {
    /// The key tag of the key (RFC 4034 appendix B).
    pub keytag: U16,
    /// The algorithm of the key.
    pub algorithm: SecAlg,
    /// How the key is digested.
    pub digest_type: DigestType,
    /// The digest, of any number of octets.
    pub digest: &'a [u8],
}

impl<'a> ParseBytes<'a> for Ds<'a> {
    ghost Seen = { List Field };

    ghost seen = { ds_fields };

    ghost reads = { fields_of no_name (rdata_format 43) };

    ghost reads_at = { plain_at (fields_of no_name (rdata_format 43)) };

    ghost leaves_rest = { uncompressed_leave (rdata_format 43) };

    ghost ends_within = { uncompressed_end (rdata_format 43) };

    fn parse_bytes(bytes: &'a [u8]) -> Result<Ds<'a>, ParseError> {
        let (keytag, rest) = U16::split_bytes(bytes)?;
        let (algorithm, rest) = SecAlg::split_bytes(rest)?;
        let (digest_type, digest) = DigestType::split_bytes(rest)?;
        Ok(Ds {
            keytag,
            algorithm,
            digest_type,
            digest,
        })
    }
}

impl<'a> ParseMessageBytes<'a> for Ds<'a> {
    fn parse_message_bytes(contents: &'a [u8], start: usize) -> Result<Ds<'a>, ParseError> {
        parse_without_compression(contents, start)
    }
}

impl<'a> DataOfType<'a> for Ds<'a> {
    ghost number = { 43 };

    fn rtype() -> RType
        ensures { result.code.value ≡ 43 }
    {
        RType::DS
    }
}

impl BuildBytes for Ds<'_> {
    ghost octets = { λ v. fields_octets (ds_fields v) };

    #[tactic(auto, using(dns_wire::proofs::Several::themselves))]
    fn build_at(&self, bytes: &mut [u8], start: usize) -> Result<usize, TruncationError> {
        let digest = (self.digest, ());
        (&self.keytag, (&self.algorithm, (&self.digest_type, digest))).build_at(bytes, start)
    }

    fn built_bytes_size(&self) -> usize {
        4 + self.digest.len()
    }
}

/// Uncompressed, with a part for each field.
impl BuildInMessage for Ds<'_> {
    ghost writes = { λ v. octets_writes (fields_octets (ds_fields v)) };

    ghost layout = { λ v. Some (octets_layout (ds_fields v)) };

    ghost layout_matches = { λ v. octets_match (ds_fields v) };

    fn build_in_message(
        &self,
        contents: &mut [u8],
        start: usize,
        compressor: &mut NameCompressor,
    ) -> Result<usize, TruncationError> {
        build_whole(self, contents, start, compressor)
    }
}

impl CanonicalRecordData for Ds<'_> {
    ghost canonical = { λ v. canonical_octets 43 (ds_fields v) };

    ghost as_long = { λ v. canonical_long 43 (ds_fields v) };

    fn build_canonical_at(&self, bytes: &mut [u8], start: usize) -> Result<usize, TruncationError> {
        self.build_at(bytes, start)
    }

    fn cmp_canonical(&self, other: &Self) -> Ordering {
        let fields = (
            self.keytag.get(),
            self.algorithm,
            self.digest_type,
            self.digest,
        );
        let others = (
            other.keytag.get(),
            other.algorithm,
            other.digest_type,
            other.digest,
        );
        fields.cmp(&others)
    }
}
