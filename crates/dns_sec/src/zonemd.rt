//! Digests of zones.

ghost use Rattle.std.specs.Prelude.{◌≡◌, ◌≤◌, ◌<◌, ◌^◌, ℕ, List, [], ◌∷◌, length, take, Option, Some, IfOk, ⊤};
ghost use Rattle.dns_wire.specs.Building.{Builds};
ghost use Rattle.dns_wire.specs.Compression.{FitsIn};
ghost use Rattle.dns_wire.specs.InMessage.{BuildsIn};
ghost use Rattle.dns_wire.specs.Layout.{octets_writes};
ghost use Rattle.dns_wire.specs.Reading.{Gives, all_of, all_at, plain_at};
ghost use Rattle.dns_record.specs.Canonical.{ranked_cmp};
ghost use Rattle.dns_record.specs.Fields.{Field, fields_octets, canonical_octets};
ghost use Rattle.dns_record.specs.Kinds.{fields_of, no_name};
ghost use Rattle.dns_record.specs.DataLemmas.{uncompressed_leave, uncompressed_end};
ghost use Rattle.dns_record.specs.Formats.{rdata_format};
ghost use Rattle.dns_record.specs.Whole.{octets_layout, octets_match};
ghost use Rattle.dns_record.proofs.Sizes.{canonical_long};
ghost use Rattle.dns_sec.specs.Formats.{format_zonemd_of};
ghost use Rattle.dns_sec.specs.Types.{zonemd_fields};

use crate::zonemd_hash_alg::ZoneMDHashAlg;
use crate::zonemd_scheme::ZoneMDScheme;
use dns_record::{CanonicalRecordData, DataOfType, RType, Serial};
use dns_wire::{
    BuildBytes, BuildInMessage, NameCompressor, ParseBytes, ParseError, ParseMessageBytes,
    SplitBytes, TruncationError, build_whole, parse_without_compression, whole,
};
use std::cmp::Ordering;
use std::convert::AsSlice;

/// A digest of a whole zone (RFC 8976 section 2.2). `D` is `&[u8]` for a digest of any number of octets, or
/// `[u8; N]` for one of N octets.
#[derive(Clone, Copy, Debug, PartialEq, Eq, Hash, Drop)]
pub struct ZoneMD<D> {
    /// The serial number of the zone that is digested.
    pub serial: Serial,
    /// How its records are collated.
    pub scheme: ZoneMDScheme,
    /// How they are digested.
    pub hash_alg: ZoneMDHashAlg,
    /// The digest.
    pub digest: D,
}

/// With a digest of any number of octets.
impl<'a> ParseBytes<'a> for ZoneMD<&'a [u8]> {
    ghost Seen = { List Field };

    ghost seen = { zonemd_fields (λ d. d.now) };

    ghost reads = { fields_of no_name (rdata_format 63) };

    ghost reads_at = { plain_at (fields_of no_name (rdata_format 63)) };

    ghost leaves_rest = { uncompressed_leave (rdata_format 63) };

    ghost ends_within = { uncompressed_end (rdata_format 63) };

    fn parse_bytes(bytes: &'a [u8]) -> Result<ZoneMD<&'a [u8]>, ParseError> {
        let (serial, rest) = Serial::split_bytes(bytes)?;
        let (scheme, rest) = ZoneMDScheme::split_bytes(rest)?;
        let (hash_alg, digest) = ZoneMDHashAlg::split_bytes(rest)?;
        Ok(ZoneMD {
            serial,
            scheme,
            hash_alg,
            digest,
        })
    }
}

/// With a digest of just N octets.
impl<'a, const N: usize> ParseBytes<'a> for ZoneMD<[u8; N]> {
    ghost Seen = { List Field };

    ghost seen = { zonemd_fields (λ d. d) };

    ghost reads = { fields_of no_name (format_zonemd_of N) };

    ghost reads_at = { plain_at (fields_of no_name (format_zonemd_of N)) };

    ghost leaves_rest = { uncompressed_leave (format_zonemd_of N) };

    ghost ends_within = { uncompressed_end (format_zonemd_of N) };

    fn parse_bytes(bytes: &'a [u8]) -> Result<ZoneMD<[u8; N]>, ParseError> {
        let (serial, rest) = Serial::split_bytes(bytes)?;
        let (scheme, rest) = ZoneMDScheme::split_bytes(rest)?;
        let (hash_alg, rest) = ZoneMDHashAlg::split_bytes(rest)?;
        let digest = <[u8; N]>::parse_bytes(rest)?;
        Ok(ZoneMD {
            serial,
            scheme,
            hash_alg,
            digest,
        })
    }
}

impl<'a> ParseMessageBytes<'a> for ZoneMD<&'a [u8]> {
    fn parse_message_bytes(
        contents: &'a [u8],
        start: usize,
    ) -> Result<ZoneMD<&'a [u8]>, ParseError> {
        parse_without_compression(contents, start)
    }
}

impl<'a, const N: usize> ParseMessageBytes<'a> for ZoneMD<[u8; N]> {
    fn parse_message_bytes(
        contents: &'a [u8],
        start: usize,
    ) -> Result<ZoneMD<[u8; N]>, ParseError> {
        parse_without_compression(contents, start)
    }
}

impl<'a> DataOfType<'a> for ZoneMD<&'a [u8]> {
    ghost number = { 63 };

    fn rtype() -> RType
        ensures { result.code.value ≡ 63 }
    {
        RType::ZONEMD
    }
}

impl<'a, const N: usize> DataOfType<'a> for ZoneMD<[u8; N]> {
    ghost number = { 63 };

    fn rtype() -> RType {
        RType::ZONEMD
    }
}

impl<D: AsSlice<u8>> BuildBytes for ZoneMD<D> {
    ghost octets = { λ v. fields_octets (zonemd_fields D.items v) };

    #[tactic(auto, using(dns_wire::proofs::Several::themselves))]
    fn build_at(&self, bytes: &mut [u8], start: usize) -> Result<usize, TruncationError> {
        let digest = self.digest.as_slice();
        (&self.serial, (&self.scheme, (&self.hash_alg, (digest, ())))).build_at(bytes, start)
    }

    fn built_bytes_size(&self) -> usize {
        6 + self.digest.as_slice().len()
    }
}

/// Uncompressed, with a part for each field.
impl<D: AsSlice<u8>> BuildInMessage for ZoneMD<D> {
    ghost writes = { λ v. octets_writes (fields_octets (zonemd_fields D.items v)) };

    ghost layout = { λ v. Some (octets_layout (zonemd_fields D.items v)) };

    ghost layout_matches = { λ v. octets_match (zonemd_fields D.items v) };

    fn build_in_message(
        &self,
        contents: &mut [u8],
        start: usize,
        compressor: &mut NameCompressor,
    ) -> Result<usize, TruncationError> {
        build_whole(self, contents, start, compressor)
    }
}

impl<D: AsSlice<u8>> CanonicalRecordData for ZoneMD<D> {
    ghost canonical = { λ v. canonical_octets 63 (zonemd_fields D.items v) };

    ghost as_long = { λ v. canonical_long 63 (zonemd_fields D.items v) };

    fn build_canonical_at(&self, bytes: &mut [u8], start: usize) -> Result<usize, TruncationError> {
        self.build_at(bytes, start)
    }

    fn cmp_canonical(&self, other: &Self) -> Ordering {
        let digests = (self.digest.as_slice(), other.digest.as_slice());
        let fields = (self.serial.get(), self.scheme, self.hash_alg, digests.0);
        let others = (other.serial.get(), other.scheme, other.hash_alg, digests.1);
        fields.cmp(&others)
    }
}
