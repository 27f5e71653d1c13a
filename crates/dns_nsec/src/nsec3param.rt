//! The parameters of hashed owners.

ghost use Rattle.std.specs.Prelude.{◌≡◌, ◌↔◌, IsTrue, ◌≤◌, ◌<◌, ◌^◌, ℕ, List, [], ◌∷◌, length, map, take, Option, Some, IfOk, ⊤};
ghost use Rattle.std.specs.Int.{w16, bit_at};
ghost use Rattle.dns_wire.specs.Building.{Builds};
ghost use Rattle.dns_wire.specs.Compression.{FitsIn};
ghost use Rattle.dns_wire.specs.InMessage.{BuildsIn};
ghost use Rattle.dns_wire.specs.Layout.{octets_writes};
ghost use Rattle.dns_wire.specs.Reading.{Gives, all_of, all_at};
ghost use Rattle.dns_record.specs.Canonical.{ranked_cmp};
ghost use Rattle.dns_record.specs.Fields.{Field, fields_octets, canonical_octets};
ghost use Rattle.dns_record.specs.Kinds.{fields_of, no_name};
ghost use Rattle.dns_record.specs.DataLemmas.{uncompressed_leave};
ghost use Rattle.dns_record.specs.Formats.{rdata_format};
ghost use Rattle.dns_record.specs.Whole.{octets_layout, octets_match};
ghost use Rattle.dns_record.proofs.Sizes.{canonical_long};
ghost use Rattle.dns_nsec.specs.Flags.{nsec3_flag_bits};
ghost use Rattle.dns_nsec.specs.Hashed.{param_algorithm_of, param_flags_of, param_iterations_of, param_salt_of};
ghost use Rattle.dns_nsec.specs.Types.{nsec3param_fields};

use crate::flags::Nsec3Flags;
use crate::hash_algorithm::Nsec3HashAlgorithm;
use crate::hash_parameters::HashParameters;
use dns_num::SizePrefixed;
use dns_record::{CanonicalRecordData, DataOfType, RType};
use dns_wire::{
    BuildBytes, BuildInMessage, NameCompressor, ParseError, ReadPlainValue, SplitBytes,
    TruncationError, build_whole,
};
use std::cmp::Ordering;

/// How the owners of a zone are hashed (RFC 5155 section 4.2).
#[derive(Clone, Copy, Debug, PartialEq, Eq, Hash)]
pub struct Nsec3Param<'a> {
    parameters: HashParameters<'a>,
}

impl<'a> Nsec3Param<'a> {
    /// How owners are hashed, the flags, how often the hash is taken again, and the salt. The condition is
    /// that the salt has at most 255 octets: `salt.inner().len()` says how many.
    pub fn new(
        hash_algorithm: Nsec3HashAlgorithm,
        flags: Nsec3Flags,
        iterations: u16,
        salt: SizePrefixed<u8, &'a [u8]>,
    ) -> Nsec3Param<'a>
        requires { length salt.now ≤ 255 }
        ensures algorithm { param_algorithm_of result ≡ hash_algorithm.code }
        ensures flags { param_flags_of result ≡ nsec3_flag_bits flags }
        ensures iterations { param_iterations_of result ≡ iterations }
        ensures salt { param_salt_of result ≡ salt.entry.now }
    {
        Nsec3Param {
            parameters: HashParameters::new(hash_algorithm, flags, iterations, salt),
        }
    }

    /// How owners are hashed.
    pub fn hash_algorithm(&self) -> Nsec3HashAlgorithm
        ensures { result.code ≡ param_algorithm_of self.now }
    {
        self.parameters.algorithm
    }

    /// The flags.
    pub fn flags(&self) -> Nsec3Flags
        ensures { nsec3_flag_bits result ≡ param_flags_of self.now }
    {
        self.parameters.flags
    }

    /// Whether names without security may be between two owners (RFC 5155 section 3.1.2.1).
    pub fn opt_out_flag(&self) -> bool
        ensures { IsTrue result ↔ (bit_at (param_flags_of self.now) 0 ≡ 1) }
    {
        self.parameters.flags.is_optout()
    }

    /// How often the hash is taken again (RFC 5155 section 3.1.3).
    pub fn iterations(&self) -> u16
        ensures { result ≡ param_iterations_of self.now }
    {
        self.parameters.iterations.get()
    }

    /// The salt, at most 255 octets.
    pub fn salt(&self) -> SizePrefixed<u8, &'a [u8]>
        ensures salt { result.now ≡ param_salt_of self.now }
        ensures short { length result.now ≤ 255 }
    {
        self.parameters.salt.prefixed()
    }
}

impl<'a> ReadPlainValue<'a> for Nsec3Param<'a> {
    ghost Seen = { List Field };

    ghost seen = { nsec3param_fields };

    ghost reads = { fields_of no_name (rdata_format 51) };

    ghost leaves_rest = { uncompressed_leave (rdata_format 51) };

    fn read_plain(bytes: &'a [u8]) -> Result<(Nsec3Param<'a>, &'a [u8]), ParseError> {
        let (parameters, rest) = HashParameters::split_bytes(bytes)?;
        Ok((Nsec3Param { parameters }, rest))
    }
}

impl<'a> DataOfType<'a> for Nsec3Param<'a> {
    ghost number = { 51 };

    fn rtype() -> RType
        ensures { result.code.value ≡ 51 }
    {
        RType::NSEC3PARAM
    }
}

impl BuildBytes for Nsec3Param<'_> {
    ghost octets = { λ v. fields_octets (nsec3param_fields v) };

    fn build_at(&self, bytes: &mut [u8], start: usize) -> Result<usize, TruncationError> {
        self.parameters.build_at(bytes, start)
    }

    fn built_bytes_size(&self) -> usize
        ensures octets { result ≡ length (fields_octets (nsec3param_fields self.now)) }
        ensures few { result ≤ 260 }
    {
        self.parameters.built_bytes_size()
    }
}

/// Uncompressed, with a part for each field.
impl BuildInMessage for Nsec3Param<'_> {
    ghost writes = { λ v. octets_writes (fields_octets (nsec3param_fields v)) };

    ghost layout = { λ v. Some (octets_layout (nsec3param_fields v)) };

    ghost layout_matches = { λ v. octets_match (nsec3param_fields v) };

    fn build_in_message(
        &self,
        contents: &mut [u8],
        start: usize,
        compressor: &mut NameCompressor,
    ) -> Result<usize, TruncationError> {
        build_whole(self, contents, start, compressor)
    }
}

impl CanonicalRecordData for Nsec3Param<'_> {
    ghost canonical = { λ v. canonical_octets 51 (nsec3param_fields v) };

    ghost as_long = { λ v. canonical_long 51 (nsec3param_fields v) };

    fn build_canonical_at(&self, bytes: &mut [u8], start: usize) -> Result<usize, TruncationError> {
        self.build_at(bytes, start)
    }

    fn cmp_canonical(&self, other: &Self) -> Ordering {
        let others = other.parameters.order_key();
        self.parameters.order_key().cmp(&others)
    }
}
