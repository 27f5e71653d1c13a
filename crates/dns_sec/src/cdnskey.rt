//! Keys that a child zone asks its parent to digest and publish.

ghost use Rattle.std.specs.Prelude.{◌≡◌, ◌≤◌, ◌<◌, ◌^◌, ℕ, List, [], ◌∷◌, length, take, Option, Some, IfOk, ⊤};
ghost use Rattle.dns_wire.specs.Building.{Builds};
ghost use Rattle.dns_wire.specs.Compression.{FitsIn};
ghost use Rattle.dns_wire.specs.InMessage.{BuildsIn};
ghost use Rattle.dns_wire.specs.Layout.{octets_writes};
ghost use Rattle.dns_wire.specs.Reading.{Gives, all_of, all_at, plain_at};
ghost use Rattle.dns_record.specs.Canonical.{ranked_cmp};
ghost use Rattle.dns_record.specs.Fields.{Field, fields_octets, canonical_octets};
ghost use Rattle.dns_record.specs.Kinds.{fields_of, no_name};
ghost use Rattle.dns_record.specs.DataLemmas.{uncompressed_leave, uncompressed_end};
ghost use Rattle.dns_record.specs.Formats.{rdata_format};
ghost use Rattle.dns_record.specs.Whole.{octets_layout, octets_match};
ghost use Rattle.dns_record.proofs.Sizes.{canonical_long};
ghost use Rattle.dns_sec.specs.Types.{cdnskey_fields, as_dnskey, as_cdnskey};

use crate::dnskey::DNSKey;
use crate::dnskey_flags::DNSKeyFlags;
use crate::sec_alg::SecAlg;
use dns_record::{CanonicalRecordData, DataOfType, RType};
use dns_wire::{
    BuildBytes, BuildInMessage, NameCompressor, ParseBytes, ParseError, ParseMessageBytes,
    TruncationError, build_whole, parse_without_compression, whole,
};
use std::cmp::Ordering;

/// A key that a child zone asks its parent to digest and publish as DS, of the fields of DNSKEY (RFC 7344 section 3.2). The
/// parent is asked to remove all its DS by the data `0 3 0 AA==` (RFC 8078 section 4).
#[derive(Clone, Copy, Debug, PartialEq, Eq, Hash)]
pub struct CDNSKey<'a> {
    /// What the key is for.
    pub flags: DNSKeyFlags,
    /// The protocol, which is 3 if the key is to be used (RFC 4034 section 2.1.2).
    pub protocol: u8,
    /// The algorithm of the key.
    pub algorithm: SecAlg,
    /// The key, of any number of octets.
    pub key: &'a [u8],
}

/// The key that the parent is asked to digest (RFC 7344 section 3.2).
impl<'a> From<CDNSKey<'a>> for DNSKey<'a> {
    ghost from_gives = { λ v w. w ≡ as_dnskey v };

    fn from(value: CDNSKey<'a>) -> DNSKey<'a> {
        DNSKey {
            flags: value.flags,
            protocol: value.protocol,
            algorithm: value.algorithm,
            key: value.key,
        }
    }
}

/// What a child zone publishes so that its parent digests this key (RFC 7344 section 3.2).
impl<'a> From<DNSKey<'a>> for CDNSKey<'a> {
    ghost from_gives = { λ v w. w ≡ as_cdnskey v };

    fn from(value: DNSKey<'a>) -> CDNSKey<'a> {
        CDNSKey {
            flags: value.flags,
            protocol: value.protocol,
            algorithm: value.algorithm,
            key: value.key,
        }
    }
}

impl<'a> ParseBytes<'a> for CDNSKey<'a> {
    ghost Seen = { List Field };

    ghost seen = { cdnskey_fields };

    ghost reads = { fields_of no_name (rdata_format 60) };

    ghost reads_at = { plain_at (fields_of no_name (rdata_format 60)) };

    ghost leaves_rest = { uncompressed_leave (rdata_format 60) };

    ghost ends_within = { uncompressed_end (rdata_format 60) };

    fn parse_bytes(bytes: &'a [u8]) -> Result<CDNSKey<'a>, ParseError> {
        Ok(CDNSKey::from(DNSKey::parse_bytes(bytes)?))
    }
}

impl<'a> ParseMessageBytes<'a> for CDNSKey<'a> {
    fn parse_message_bytes(contents: &'a [u8], start: usize) -> Result<CDNSKey<'a>, ParseError> {
        parse_without_compression(contents, start)
    }
}

impl<'a> DataOfType<'a> for CDNSKey<'a> {
    ghost number = { 60 };

    fn rtype() -> RType
        ensures { result.code.value ≡ 60 }
    {
        RType::CDNSKEY
    }
}

impl BuildBytes for CDNSKey<'_> {
    ghost octets = { λ v. fields_octets (cdnskey_fields v) };

    fn build_at(&self, bytes: &mut [u8], start: usize) -> Result<usize, TruncationError> {
        DNSKey::from(*self).build_at(bytes, start)
    }

    fn built_bytes_size(&self) -> usize {
        DNSKey::from(*self).built_bytes_size()
    }
}

/// Uncompressed, with a part for each field.
impl BuildInMessage for CDNSKey<'_> {
    ghost writes = { λ v. octets_writes (fields_octets (cdnskey_fields v)) };

    ghost layout = { λ v. Some (octets_layout (cdnskey_fields v)) };

    ghost layout_matches = { λ v. octets_match (cdnskey_fields v) };

    fn build_in_message(
        &self,
        contents: &mut [u8],
        start: usize,
        compressor: &mut NameCompressor,
    ) -> Result<usize, TruncationError> {
        build_whole(self, contents, start, compressor)
    }
}

impl CanonicalRecordData for CDNSKey<'_> {
    ghost canonical = { λ v. canonical_octets 60 (cdnskey_fields v) };

    ghost as_long = { λ v. canonical_long 60 (cdnskey_fields v) };

    fn build_canonical_at(&self, bytes: &mut [u8], start: usize) -> Result<usize, TruncationError> {
        self.build_at(bytes, start)
    }

    fn cmp_canonical(&self, other: &Self) -> Ordering {
        DNSKey::from(*self).cmp_canonical(&DNSKey::from(*other))
    }
}
