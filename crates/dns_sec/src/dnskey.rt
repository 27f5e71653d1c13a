//! Keys of zones.

ghost use Rattle.std.specs.Prelude.{◌≡◌, ◌≤◌, ◌<◌, ◌^◌, ℕ, List, [], ◌∷◌, length, take, Option, Some, IfOk, ⊤};
ghost use Rattle.dns_wire.specs.Building.{Builds};
ghost use Rattle.dns_wire.specs.Compression.{FitsIn};
ghost use Rattle.dns_wire.specs.InMessage.{BuildsIn};
ghost use Rattle.dns_wire.specs.Layout.{octets_writes};
ghost use Rattle.dns_wire.specs.Reading.{Gives, all_of, all_at, plain_at};
ghost use Rattle.dns_record.specs.Canonical.{ranked_cmp};
ghost use Rattle.dns_record.specs.Fields.{Field, fields_octets, canonical_octets};
ghost use Rattle.dns_record.specs.Kinds.{fields_of, no_name};
ghost use Rattle.dns_record.specs.DataLemmas.{uncompressed_leave, uncompressed_end};
ghost use Rattle.dns_record.specs.Formats.{rdata_format};
ghost use Rattle.dns_record.specs.Whole.{octets_layout, octets_match};
ghost use Rattle.dns_record.proofs.Sizes.{canonical_long};
ghost use Rattle.dns_sec.specs.Types.{dnskey_fields};

use crate::dnskey_flags::DNSKeyFlags;
use crate::sec_alg::SecAlg;
use dns_record::{CanonicalRecordData, DataOfType, RType};
use dns_wire::{
    BuildBytes, BuildInMessage, NameCompressor, ParseBytes, ParseError, ParseMessageBytes,
    SplitBytes, TruncationError, build_whole, parse_without_compression, whole,
};
use std::cmp::Ordering;

/// A public key of a zone (RFC 4034 section 2.1).
#[derive(Clone, Copy, Debug, PartialEq, Eq, Hash)]
pub struct DNSKey<'a> {
    /// What the key is for.
    pub flags: DNSKeyFlags,
    /// The protocol, which is 3 if the key is to be used (RFC 4034 section 2.1.2).
    pub protocol: u8,
    /// The algorithm of the key.
    pub algorithm: SecAlg,
    /// The key, of any number of octets.
    pub key: &'a [u8],
}

impl<'a> ParseBytes<'a> for DNSKey<'a> {
    ghost Seen = { List Field };

    ghost seen = { dnskey_fields };

    ghost reads = { fields_of no_name (rdata_format 48) };

    ghost reads_at = { plain_at (fields_of no_name (rdata_format 48)) };

    ghost leaves_rest = { uncompressed_leave (rdata_format 48) };

    ghost ends_within = { uncompressed_end (rdata_format 48) };

    fn parse_bytes(bytes: &'a [u8]) -> Result<DNSKey<'a>, ParseError> {
        let (flags, rest) = DNSKeyFlags::split_bytes(bytes)?;
        let (protocol, rest) = u8::split_bytes(rest)?;
        let (algorithm, key) = SecAlg::split_bytes(rest)?;
        Ok(DNSKey {
            flags,
            protocol,
            algorithm,
            key,
        })
    }
}

impl<'a> ParseMessageBytes<'a> for DNSKey<'a> {
    fn parse_message_bytes(contents: &'a [u8], start: usize) -> Result<DNSKey<'a>, ParseError> {
        parse_without_compression(contents, start)
    }
}

impl<'a> DataOfType<'a> for DNSKey<'a> {
    ghost number = { 48 };

    fn rtype() -> RType
        ensures { result.code.value ≡ 48 }
    {
        RType::DNSKEY
    }
}

impl BuildBytes for DNSKey<'_> {
    ghost octets = { λ v. fields_octets (dnskey_fields v) };

    #[tactic(auto, using(dns_wire::proofs::Several::themselves))]
    fn build_at(&self, bytes: &mut [u8], start: usize) -> Result<usize, TruncationError> {
        let key = (self.key, ());
        (&self.flags, (&self.protocol, (&self.algorithm, key))).build_at(bytes, start)
    }

    fn built_bytes_size(&self) -> usize {
        4 + self.key.len()
    }
}

/// Uncompressed, with a part for each field.
impl BuildInMessage for DNSKey<'_> {
    ghost writes = { λ v. octets_writes (fields_octets (dnskey_fields v)) };

    ghost layout = { λ v. Some (octets_layout (dnskey_fields v)) };

    ghost layout_matches = { λ v. octets_match (dnskey_fields v) };

    fn build_in_message(
        &self,
        contents: &mut [u8],
        start: usize,
        compressor: &mut NameCompressor,
    ) -> Result<usize, TruncationError> {
        build_whole(self, contents, start, compressor)
    }
}

impl CanonicalRecordData for DNSKey<'_> {
    ghost canonical = { λ v. canonical_octets 48 (dnskey_fields v) };

    ghost as_long = { λ v. canonical_long 48 (dnskey_fields v) };

    fn build_canonical_at(&self, bytes: &mut [u8], start: usize) -> Result<usize, TruncationError> {
        self.build_at(bytes, start)
    }

    fn cmp_canonical(&self, other: &Self) -> Ordering {
        let fields = (self.flags.bits(), self.protocol, self.algorithm, self.key);
        let others = (
            other.flags.bits(),
            other.protocol,
            other.algorithm,
            other.key,
        );
        fields.cmp(&others)
    }
}
