//! The next hashed owner.

ghost use Rattle.std.specs.Prelude.{◌≡◌, ◌≤◌, ◌<◌, ◌^◌, ℕ, List, [], ◌∷◌, length, map, take, Option, Some, IfOk, ⊤};
ghost use Rattle.std.specs.Int.{w16};
ghost use Rattle.dns_wire.specs.Building.{Builds};
ghost use Rattle.dns_wire.specs.Compression.{FitsIn};
ghost use Rattle.dns_wire.specs.InMessage.{BuildsIn};
ghost use Rattle.dns_wire.specs.Layout.{octets_writes};
ghost use Rattle.dns_wire.specs.Reading.{Gives, all_of, all_at, plain_at};
ghost use Rattle.dns_record.specs.Canonical.{ranked_cmp};
ghost use Rattle.dns_record.specs.Fields.{Field, fields_octets, canonical_octets};
ghost use Rattle.dns_record.specs.Kinds.{fields_of, no_name};
ghost use Rattle.dns_record.specs.DataLemmas.{uncompressed_leave, uncompressed_end};
ghost use Rattle.dns_record.specs.Formats.{rdata_format};
ghost use Rattle.dns_record.specs.Whole.{octets_layout, octets_match};
ghost use Rattle.dns_record.proofs.Sizes.{canonical_long};
ghost use Rattle.dns_nsec.specs.Flags.{nsec3_flag_bits};
ghost use Rattle.dns_nsec.specs.Hashed.{algorithm_of, flags_of, iterations_of, salt_of, next_owner_of, types_of};
ghost use Rattle.dns_nsec.specs.Types.{nsec3_fields};

use crate::bitmaps::TypeBitmaps;
use crate::flags::Nsec3Flags;
use crate::hash_algorithm::Nsec3HashAlgorithm;
use crate::hash_parameters::HashParameters;
use crate::short_octets::ShortOctets;
use dns_num::SizePrefixed;
use dns_record::{CanonicalRecordData, DataOfType, RType};
use dns_wire::{
    BuildBytes, BuildInMessage, NameCompressor, ParseBytes, ParseError, ParseMessageBytes,
    SplitBytes, TruncationError, build_whole, parse_without_compression, whole,
};
use std::cmp::Ordering;

/// The next hashed owner of a zone, and the types at the owner that was hashed (RFC 5155 section 3.2).
#[derive(Clone, Copy, Debug, PartialEq, Eq, Hash)]
pub struct Nsec3<'a> {
    parameters: HashParameters<'a>,
    next_owner: ShortOctets<'a>,
    types: TypeBitmaps<'a>,
}

impl<'a> Nsec3<'a> {
    /// How owners are hashed, the flags, how often the hash is taken again, the salt, the next owner's hash,
    /// and the types at the owner. The condition is that salt and hash have at most 255 octets each:
    /// `salt.inner().len()` and `next_owner.inner().len()` say how many.
    pub fn new(
        hash_algorithm: Nsec3HashAlgorithm,
        flags: Nsec3Flags,
        iterations: u16,
        salt: SizePrefixed<u8, &'a [u8]>,
        next_owner: SizePrefixed<u8, &'a [u8]>,
        types: TypeBitmaps<'a>,
    ) -> Nsec3<'a>
        requires salt { length salt.now ≤ 255 }
        requires next_owner { length next_owner.now ≤ 255 }
        ensures algorithm { algorithm_of result ≡ hash_algorithm.code }
        ensures flags { flags_of result ≡ nsec3_flag_bits flags }
        ensures iterations { iterations_of result ≡ iterations }
        ensures salt { salt_of result ≡ salt.entry.now }
        ensures next_owner { next_owner_of result ≡ next_owner.entry.now }
        ensures types { types_of result ≡ types.entry.slice.now }
    {
        Nsec3 {
            parameters: HashParameters::new(hash_algorithm, flags, iterations, salt),
            next_owner: ShortOctets::new(next_owner),
            types,
        }
    }

    /// How owners are hashed.
    pub fn algorithm(&self) -> Nsec3HashAlgorithm
        ensures { result.code ≡ algorithm_of self.now }
    {
        self.parameters.algorithm
    }

    /// The flags.
    pub fn flags(&self) -> Nsec3Flags
        ensures { nsec3_flag_bits result ≡ flags_of self.now }
    {
        self.parameters.flags
    }

    /// How often the hash is taken again (RFC 5155 section 3.1.3).
    pub fn iterations(&self) -> u16
        ensures { result ≡ iterations_of self.now }
    {
        self.parameters.iterations.get()
    }

    /// The salt, at most 255 octets.
    pub fn salt(&self) -> SizePrefixed<u8, &'a [u8]>
        ensures salt { result.now ≡ salt_of self.now }
        ensures short { length result.now ≤ 255 }
    {
        self.parameters.salt.prefixed()
    }

    /// The next owner's hash, at most 255 octets.
    pub fn next_owner(&self) -> SizePrefixed<u8, &'a [u8]>
        ensures next_owner { result.now ≡ next_owner_of self.now }
        ensures short { length result.now ≤ 255 }
    {
        self.next_owner.prefixed()
    }

    /// The types at the owner that was hashed.
    pub fn types(&self) -> TypeBitmaps<'a>
        ensures { result.slice.now ≡ types_of self.now }
    {
        self.types
    }
}

impl<'a> ParseBytes<'a> for Nsec3<'a> {
    ghost Seen = { List Field };

    ghost seen = { nsec3_fields };

    ghost reads = { fields_of no_name (rdata_format 50) };

    ghost reads_at = { plain_at (fields_of no_name (rdata_format 50)) };

    ghost leaves_rest = { uncompressed_leave (rdata_format 50) };

    ghost ends_within = { uncompressed_end (rdata_format 50) };

    fn parse_bytes(bytes: &'a [u8]) -> Result<Nsec3<'a>, ParseError> {
        let (parameters, rest) = HashParameters::split_bytes(bytes)?;
        let (next_owner, rest) = ShortOctets::split_bytes(rest)?;
        let types = TypeBitmaps::parse_bytes(rest)?;
        Ok(Nsec3 {
            parameters,
            next_owner,
            types,
        })
    }
}

impl<'a> ParseMessageBytes<'a> for Nsec3<'a> {
    fn parse_message_bytes(contents: &'a [u8], start: usize) -> Result<Nsec3<'a>, ParseError> {
        parse_without_compression(contents, start)
    }
}

impl<'a> DataOfType<'a> for Nsec3<'a> {
    ghost number = { 50 };

    fn rtype() -> RType
        ensures { result.code.value ≡ 50 }
    {
        RType::NSEC3
    }
}

impl BuildBytes for Nsec3<'_> {
    ghost octets = { λ v. fields_octets (nsec3_fields v) };

    fn build_at(&self, bytes: &mut [u8], start: usize) -> Result<usize, TruncationError> {
        (&self.parameters, (&self.next_owner, (&self.types, ()))).build_at(bytes, start)
    }

    fn built_bytes_size(&self) -> usize {
        let hashed = self.parameters.built_bytes_size() + self.next_owner.built_bytes_size();
        hashed + self.types.built_bytes_size()
    }
}

/// Uncompressed, with a part for each field.
impl BuildInMessage for Nsec3<'_> {
    ghost writes = { λ v. octets_writes (fields_octets (nsec3_fields v)) };

    ghost layout = { λ v. Some (octets_layout (nsec3_fields v)) };

    ghost layout_matches = { λ v. octets_match (nsec3_fields v) };

    fn build_in_message(
        &self,
        contents: &mut [u8],
        start: usize,
        compressor: &mut NameCompressor,
    ) -> Result<usize, TruncationError> {
        build_whole(self, contents, start, compressor)
    }
}

impl CanonicalRecordData for Nsec3<'_> {
    ghost canonical = { λ v. canonical_octets 50 (nsec3_fields v) };

    ghost as_long = { λ v. canonical_long 50 (nsec3_fields v) };

    fn build_canonical_at(&self, bytes: &mut [u8], start: usize) -> Result<usize, TruncationError> {
        self.build_at(bytes, start)
    }

    fn cmp_canonical(&self, other: &Self) -> Ordering {
        let (parameters, next_owner) = (self.parameters.order_key(), self.next_owner.order_key());
        let fields = (parameters, next_owner, self.types.slice);
        let (parameters, next_owner) = (other.parameters.order_key(), other.next_owner.order_key());
        fields.cmp(&(parameters, next_owner, other.types.slice))
    }
}
