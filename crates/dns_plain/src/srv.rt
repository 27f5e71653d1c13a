//! Services.

ghost use Rattle.std.specs.Prelude.{◌≡◌, ◌≤◌, ◌<◌, ◌^◌, ℕ, List, [], ◌∷◌, length, map, take, Option, Some, IfOk, ⊤};
ghost use Rattle.std.specs.Int.{w16};
ghost use Rattle.dns_wire.specs.Building.{Builds};
ghost use Rattle.dns_wire.specs.Compression.{FitsIn};
ghost use Rattle.dns_wire.specs.InMessage.{BuildsIn};
ghost use Rattle.dns_wire.specs.Layout.{octets_writes};
ghost use Rattle.dns_wire.specs.Reading.{Gives, all_of, all_at};
ghost use Rattle.dns_record.specs.Canonical.{ranked_cmp};
ghost use Rattle.dns_record.specs.Fields.{Field, fields_octets, canonical_octets};
ghost use Rattle.dns_record.specs.Kinds.{fields_of, no_name};
ghost use Rattle.dns_record.specs.DataLemmas.{uncompressed_leave};
ghost use Rattle.dns_record.specs.Formats.{rdata_format};
ghost use Rattle.dns_record.specs.Whole.{octets_layout, octets_match};
ghost use Rattle.dns_record.proofs.Sizes.{canonical_long};
ghost use Rattle.dns_plain.specs.Types.{srv_fields};

use dns_name::{CanonicalName, Lowercased, Name};
use dns_num::U16;
use dns_record::{CanonicalRecordData, DataOfType, RType};
use dns_wire::{
    BuildBytes, BuildInMessage, NameCompressor, ParseError, ReadPlainValue, SplitBytes,
    TruncationError, build_whole,
};
use std::cmp::Ordering;

/// Where a service is: a host and a port (RFC 2782).
#[derive(Clone, Copy, Debug, PartialEq, Eq, PartialOrd, Ord, Hash)]
pub struct Srv<'a> {
    /// The priority, from 0 to 65,535: hosts of the lowest are tried first.
    pub priority: U16,
    /// The weight, from 0 to 65,535: how often the host is chosen among those of the same priority.
    pub weight: U16,
    /// The port of the service, from 0 to 65,535.
    pub port: U16,
    /// The host, whose name is never compressed.
    pub name: Name<'a>,
}

impl<'a> ReadPlainValue<'a> for Srv<'a> {
    ghost Seen = { List Field };

    ghost seen = { srv_fields };

    ghost reads = { fields_of no_name (rdata_format 33) };

    ghost leaves_rest = { uncompressed_leave (rdata_format 33) };

    fn read_plain(bytes: &'a [u8]) -> Result<(Srv<'a>, &'a [u8]), ParseError> {
        let (priority, rest) = U16::split_bytes(bytes)?;
        let (weight, rest) = U16::split_bytes(rest)?;
        let (port, rest) = U16::split_bytes(rest)?;
        let (name, rest) = Name::split_bytes(rest)?;
        let value = Srv {
            priority,
            weight,
            port,
            name,
        };
        Ok((value, rest))
    }
}

impl<'a> DataOfType<'a> for Srv<'a> {
    ghost number = { 33 };

    fn rtype() -> RType
        ensures { result.code.value ≡ 33 }
    {
        RType::SRV
    }
}

impl BuildBytes for Srv<'_> {
    ghost octets = { λ v. fields_octets (srv_fields v) };

    fn build_at(&self, bytes: &mut [u8], start: usize) -> Result<usize, TruncationError> {
        (
            &self.priority,
            (&self.weight, (&self.port, (&self.name, ()))),
        )
            .build_at(bytes, start)
    }

    /// The number of octets, from 7 to 261.
    fn built_bytes_size(&self) -> usize
        ensures size { result ≡ length (fields_octets (srv_fields self.now)) }
        ensures short { result ≤ 261 }
    {
        self.priority.built_bytes_size()
            + self.weight.built_bytes_size()
            + self.port.built_bytes_size()
            + self.name.built_bytes_size()
    }
}

/// Uncompressed, with a part for each field.
impl BuildInMessage for Srv<'_> {
    ghost writes = { λ v. octets_writes (fields_octets (srv_fields v)) };

    ghost layout = { λ v. Some (octets_layout (srv_fields v)) };

    ghost layout_matches = { λ v. octets_match (srv_fields v) };

    fn build_in_message(
        &self,
        contents: &mut [u8],
        start: usize,
        compressor: &mut NameCompressor,
    ) -> Result<usize, TruncationError> {
        build_whole(self, contents, start, compressor)
    }
}

impl CanonicalRecordData for Srv<'_> {
    ghost canonical = { λ v. canonical_octets 33 (srv_fields v) };

    ghost as_long = { λ v. canonical_long 33 (srv_fields v) };

    fn build_canonical_at(&self, bytes: &mut [u8], start: usize) -> Result<usize, TruncationError> {
        let name = Lowercased { name: &self.name };
        (&self.priority, (&self.weight, (&self.port, (name, ())))).build_at(bytes, start)
    }

    fn cmp_canonical(&self, other: &Self) -> Ordering {
        match self.priority.compare(&other.priority) {
            Ordering::Equal => {}
            decided => return decided,
        }
        match self.weight.compare(&other.weight) {
            Ordering::Equal => {}
            decided => return decided,
        }
        match self.port.compare(&other.port) {
            Ordering::Equal => {}
            decided => return decided,
        }
        self.name.cmp_lowercase_composed(&other.name)
    }
}
