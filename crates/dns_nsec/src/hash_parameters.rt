//! How the owners of a zone are hashed.

ghost use Rattle.std.specs.Prelude.{◌≡◌, ◌≤◌, ◌<◌, ◌^◌, List, length, ⊤};
ghost use Rattle.dns_wire.specs.Reading.{plain_at};
ghost use Rattle.dns_record.specs.Fields.{Field, fields_octets};
ghost use Rattle.dns_record.specs.Kinds.{fields_of, no_name};
ghost use Rattle.dns_record.specs.DataLemmas.{uncompressed_leave, uncompressed_end};
ghost use Rattle.dns_record.specs.Formats.{rdata_format};
ghost use Rattle.dns_nsec.specs.Flags.{nsec3_flag_bits};
ghost use Rattle.dns_nsec.specs.Types.{parameter_fields};

use crate::flags::Nsec3Flags;
use crate::hash_algorithm::Nsec3HashAlgorithm;
use crate::short_octets::ShortOctets;
use dns_num::{SizePrefixed, U16};
use dns_wire::{BuildBytes, ParseBytes, ParseError, SplitBytes, TruncationError, whole};

/// How the owners of a zone are hashed: what NSEC3 and NSEC3PARAM begin with (RFC 5155 sections 3.2 and 4.2).
#[derive(Clone, Copy, Debug, PartialEq, Eq, Hash)]
pub(crate) struct HashParameters<'a> {
    /// The algorithm.
    pub algorithm: Nsec3HashAlgorithm,
    /// The flags.
    pub flags: Nsec3Flags,
    /// How often the hash is taken again (RFC 5155 section 3.1.3).
    pub iterations: U16,
    /// The salt.
    pub salt: ShortOctets<'a>,
}

impl<'a> HashParameters<'a> {
    /// These parameters. The condition is that the salt has at most 255 octets.
    pub fn new(
        algorithm: Nsec3HashAlgorithm,
        flags: Nsec3Flags,
        iterations: u16,
        salt: SizePrefixed<u8, &'a [u8]>,
    ) -> HashParameters<'a>
        requires { length salt.now ≤ 255 }
        ensures algorithm { result.algorithm ≡ algorithm }
        ensures flags { result.flags ≡ flags }
        ensures iterations { result.iterations.value ≡ iterations }
        ensures salt { result.salt.octets.now ≡ salt.entry.now }
    {
        HashParameters {
            algorithm,
            flags,
            iterations: U16::new(iterations),
            salt: ShortOctets::new(salt),
        }
    }

    /// What is compared, from the first to the last.
    pub fn order_key(&self) -> (Nsec3HashAlgorithm, u8, u16, (usize, &'a [u8]))
        ensures key { result ≡ record {
          0 = self.now.algorithm;
          1 = nsec3_flag_bits self.now.flags;
          2 = self.now.iterations.value;
          3 = record { 0 = length self.now.salt.octets.now; 1 = self.now.salt.octets };
        } }
        ensures fits { self.now.iterations.value < 2 ^ 16 }
    {
        (
            self.algorithm,
            self.flags.bits(),
            self.iterations.get(),
            self.salt.order_key(),
        )
    }
}

impl<'a> ParseBytes<'a> for HashParameters<'a> {
    ghost Seen = { List Field };

    ghost seen = { parameter_fields };

    ghost reads = { fields_of no_name (rdata_format 51) };

    ghost reads_at = { plain_at (fields_of no_name (rdata_format 51)) };

    ghost leaves_rest = { uncompressed_leave (rdata_format 51) };

    ghost ends_within = { uncompressed_end (rdata_format 51) };

    fn parse_bytes(bytes: &'a [u8]) -> Result<HashParameters<'a>, ParseError> {
        whole(HashParameters::split_bytes(bytes))
    }
}

impl<'a> SplitBytes<'a> for HashParameters<'a> {
    fn split_bytes(bytes: &'a [u8]) -> Result<(HashParameters<'a>, &'a [u8]), ParseError> {
        let (algorithm, rest) = Nsec3HashAlgorithm::split_bytes(bytes)?;
        let (flags, rest) = Nsec3Flags::split_bytes(rest)?;
        let (iterations, rest) = U16::split_bytes(rest)?;
        let (salt, rest) = ShortOctets::split_bytes(rest)?;
        let value = HashParameters {
            algorithm,
            flags,
            iterations,
            salt,
        };
        Ok((value, rest))
    }
}

impl BuildBytes for HashParameters<'_> {
    ghost octets = { λ v. fields_octets (parameter_fields v) };

    fn build_at(&self, bytes: &mut [u8], start: usize) -> Result<usize, TruncationError> {
        let salted = (&self.iterations, (&self.salt, ()));
        (&self.algorithm, (&self.flags, salted)).build_at(bytes, start)
    }

    fn built_bytes_size(&self) -> usize
        ensures octets { result ≡ length (fields_octets (parameter_fields self.now)) }
        ensures few { result ≤ 260 }
    {
        5 + self.salt.octets.len()
    }
}
