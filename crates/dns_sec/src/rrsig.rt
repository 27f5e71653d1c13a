//! Signatures of records.

ghost use Rattle.std.specs.Prelude.{◌≡◌, ◌≤◌, ◌<◌, ◌^◌, ℕ, List, [], ◌∷◌, length, map, take, Option, Some, IfOk, ⊤};
ghost use Rattle.dns_wire.specs.Building.{Builds};
ghost use Rattle.dns_wire.specs.Compression.{FitsIn};
ghost use Rattle.dns_wire.specs.InMessage.{BuildsIn};
ghost use Rattle.dns_wire.specs.Layout.{octets_writes};
ghost use Rattle.dns_wire.specs.Reading.{Gives, all_of, all_at, plain_at};
ghost use Rattle.dns_record.specs.Canonical.{ranked_cmp};
ghost use Rattle.dns_record.specs.Fields.{Field, fields_octets, canonical_octets};
ghost use Rattle.dns_record.specs.Kinds.{fields_of, no_name};
ghost use Rattle.dns_record.specs.DataLemmas.{uncompressed_leave, uncompressed_end};
ghost use Rattle.dns_record.specs.Formats.{rdata_format};
ghost use Rattle.dns_record.specs.Whole.{octets_layout, octets_match};
ghost use Rattle.dns_record.proofs.Sizes.{canonical_long};
ghost use Rattle.dns_sec.specs.Types.{rrsig_fields};

use crate::sec_alg::SecAlg;
use crate::timestamp::Timestamp;
use dns_name::{CanonicalName, Lowercased, Name};
use dns_num::U16;
use dns_record::{CanonicalRecordData, DataOfType, RType, Serial, TTL};
use dns_wire::{
    BuildBytes, BuildInMessage, NameCompressor, ParseBytes, ParseError, ParseMessageBytes,
    SplitBytes, TruncationError, build_whole, parse_without_compression, whole,
};
use std::cmp::Ordering;

/// A signature of all the records of one owner, class and type (RFC 4034 section 3.1).
#[derive(Clone, Copy, Debug, PartialEq, Eq, Hash)]
pub struct Rrsig<'a> {
    /// The type of the records that are signed.
    pub rtype: RType,
    /// The algorithm of the signature.
    pub algorithm: SecAlg,
    /// The number of the owner's labels, a wildcard's and the root's not counted (RFC 4034 section 3.1.3).
    pub labels: u8,
    /// The time to live that the records have in the zone.
    pub ttl: TTL,
    /// The moment after which it no longer holds.
    pub expiration: Serial,
    /// The moment from which on it holds.
    pub inception: Serial,
    /// The key tag of the key that signed (RFC 4034 appendix B).
    pub keytag: U16,
    /// The owner of the key that signed.
    pub signer: Name<'a>,
    /// The signature, of any number of octets.
    pub signature: &'a [u8],
}

impl Rrsig<'_> {
    /// The type of the records that are signed (RFC 4034 section 3.1.1).
    pub fn type_covered(&self) -> RType
        ensures { result ≡ self.now.rtype }
    {
        self.rtype
    }

    /// The time to live that the records have in the zone (RFC 4034 section 3.1.4).
    pub fn original_ttl(&self) -> TTL
        ensures { result ≡ self.now.ttl }
    {
        self.ttl
    }

    /// The key tag of the key that signed (RFC 4034 section 3.1.6).
    pub fn key_tag(&self) -> u16
        ensures { result ≡ self.now.keytag.value }
    {
        self.keytag.get()
    }

    /// The moment after which it no longer holds (RFC 4034 section 3.1.5).
    pub fn expiration(&self) -> Timestamp
        ensures { result ≡ self.now.expiration.0.value }
    {
        Timestamp::from(self.expiration.get())
    }

    /// The fields before the signer, in order, each of which fits its width.
    fn fixed_fields(&self) -> (u16, SecAlg, u8, u32, u32, u32, u16)
        ensures fields { result ≡ record {
          0 = self.now.rtype.code.value;
          1 = self.now.algorithm;
          2 = self.now.labels;
          3 = self.now.ttl.value.value;
          4 = self.now.expiration.0.value;
          5 = self.now.inception.0.value;
          6 = self.now.keytag.value;
        } }
        ensures fit { (self.now.rtype.code.value < 2 ^ 16) × (self.now.ttl.value.value < 2 ^ 32)
            × (self.now.expiration.0.value < 2 ^ 32) × (self.now.inception.0.value < 2 ^ 32)
            × (self.now.keytag.value < 2 ^ 16) }
    {
        (
            self.rtype.code.get(),
            self.algorithm,
            self.labels,
            self.ttl.value.get(),
            self.expiration.get(),
            self.inception.get(),
            self.keytag.get(),
        )
    }
}

impl<'a> ParseBytes<'a> for Rrsig<'a> {
    ghost Seen = { List Field };

    ghost seen = { rrsig_fields };

    ghost reads = { fields_of no_name (rdata_format 46) };

    ghost reads_at = { plain_at (fields_of no_name (rdata_format 46)) };

    ghost leaves_rest = { uncompressed_leave (rdata_format 46) };

    ghost ends_within = { uncompressed_end (rdata_format 46) };

    fn parse_bytes(bytes: &'a [u8]) -> Result<Rrsig<'a>, ParseError> {
        let (rtype, rest) = RType::split_bytes(bytes)?;
        let (algorithm, rest) = SecAlg::split_bytes(rest)?;
        let (labels, rest) = u8::split_bytes(rest)?;
        let (ttl, rest) = TTL::split_bytes(rest)?;
        let (expiration, rest) = Serial::split_bytes(rest)?;
        let (inception, rest) = Serial::split_bytes(rest)?;
        let (keytag, rest) = U16::split_bytes(rest)?;
        let (signer, signature) = Name::split_bytes(rest)?;
        Ok(Rrsig {
            rtype,
            algorithm,
            labels,
            ttl,
            expiration,
            inception,
            keytag,
            signer,
            signature,
        })
    }
}

impl<'a> ParseMessageBytes<'a> for Rrsig<'a> {
    fn parse_message_bytes(contents: &'a [u8], start: usize) -> Result<Rrsig<'a>, ParseError> {
        parse_without_compression(contents, start)
    }
}

impl<'a> DataOfType<'a> for Rrsig<'a> {
    ghost number = { 46 };

    fn rtype() -> RType
        ensures { result.code.value ≡ 46 }
    {
        RType::RRSIG
    }
}

impl BuildBytes for Rrsig<'_> {
    ghost octets = { λ v. fields_octets (rrsig_fields v) };

    #[tactic(auto, using(dns_wire::proofs::Several::themselves))]
    fn build_at(&self, bytes: &mut [u8], start: usize) -> Result<usize, TruncationError> {
        let fixed = (&self.rtype, (&self.algorithm, (&self.labels, &self.ttl)));
        let times = (&self.expiration, (&self.inception, &self.keytag));
        let named = (&self.signer, (self.signature, ()));
        (fixed, (times, named)).build_at(bytes, start)
    }

    fn built_bytes_size(&self) -> usize {
        18 + self.signer.built_bytes_size() + self.signature.len()
    }
}

/// Uncompressed, with a part for each field.
impl BuildInMessage for Rrsig<'_> {
    ghost writes = { λ v. octets_writes (fields_octets (rrsig_fields v)) };

    ghost layout = { λ v. Some (octets_layout (rrsig_fields v)) };

    ghost layout_matches = { λ v. octets_match (rrsig_fields v) };

    fn build_in_message(
        &self,
        contents: &mut [u8],
        start: usize,
        compressor: &mut NameCompressor,
    ) -> Result<usize, TruncationError> {
        build_whole(self, contents, start, compressor)
    }
}

/// The fields in order, the signer in lowercase.
impl CanonicalRecordData for Rrsig<'_> {
    ghost canonical = { λ v. canonical_octets 46 (rrsig_fields v) };

    ghost as_long = { λ v. canonical_long 46 (rrsig_fields v) };

    #[tactic(auto, using(dns_wire::proofs::Several::themselves))]
    fn build_canonical_at(&self, bytes: &mut [u8], start: usize) -> Result<usize, TruncationError> {
        let fixed = (&self.rtype, (&self.algorithm, (&self.labels, &self.ttl)));
        let times = (&self.expiration, (&self.inception, &self.keytag));
        let signer = Lowercased { name: &self.signer };
        let named = (signer, (self.signature, ()));
        (fixed, (times, named)).build_at(bytes, start)
    }

    fn cmp_canonical(&self, other: &Self) -> Ordering {
        let order = self.fixed_fields().cmp(&other.fixed_fields());
        if order.is_ne() {
            return order;
        }
        let order = self.signer.cmp_lowercase_composed(&other.signer);
        if order.is_ne() {
            return order;
        }
        self.signature.cmp(other.signature)
    }
}
