//! The types of this crate by the one table: what is read and written for the number of each is what its RDATA format says.

ghost use Rattle.std.specs.Prelude.{◌≡◌, ℕ};
ghost use Rattle.dns_wire.specs.Names.{plain_name};
ghost use Rattle.dns_wire.specs.Octets.{Octets};
ghost use Rattle.dns_wire.specs.Pointers.{name_at};
ghost use Rattle.dns_record.specs.Data.{data_as, data_in, of_type};
ghost use Rattle.dns_record.specs.Fields.{canonical_octets};
ghost use Rattle.dns_nsec.specs.Types.{nsec_fields, nsec3_fields, nsec3param_fields};

use crate::nsec::Nsec;
use crate::nsec3::Nsec3;
use crate::nsec3param::Nsec3Param;
use dns_record::{CanonicalRecordData, ParseRecordDataBytes};

/// Of all the octets, each type reads the fields of its number's RDATA format, and for any other number nothing (RFC 4034
/// section 4.1, RFC 5155 sections 3.2 and 4.2).
pub fn types_are_read_by_number()
    ensures nsec { (rtype : ℕ) (bytes : Octets) → ⟦<Nsec<'static> as ParseRecordDataBytes<'static>>⟧.reads_as rtype bytes ≡ of_type 47 rtype (data_as plain_name 47 bytes) }
    ensures nsec3 { (rtype : ℕ) (bytes : Octets) → ⟦<Nsec3<'static> as ParseRecordDataBytes<'static>>⟧.reads_as rtype bytes ≡ of_type 50 rtype (data_as plain_name 50 bytes) }
    ensures nsec3param { (rtype : ℕ) (bytes : Octets) → ⟦<Nsec3Param<'static> as ParseRecordDataBytes<'static>>⟧.reads_as rtype bytes ≡ of_type 51 rtype (data_as plain_name 51 bytes) }
{}

/// The same in a message, from a place to the end of the contents.
pub fn types_are_read_by_number_in_messages()
    ensures nsec { (rtype : ℕ) (contents : Octets) (at : ℕ) → ⟦<Nsec<'static> as ParseRecordDataBytes<'static>>⟧.reads_in rtype contents at ≡ of_type 47 rtype (data_in name_at 47 contents at) }
    ensures nsec3 { (rtype : ℕ) (contents : Octets) (at : ℕ) → ⟦<Nsec3<'static> as ParseRecordDataBytes<'static>>⟧.reads_in rtype contents at ≡ of_type 50 rtype (data_in name_at 50 contents at) }
    ensures nsec3param { (rtype : ℕ) (contents : Octets) (at : ℕ) → ⟦<Nsec3Param<'static> as ParseRecordDataBytes<'static>>⟧.reads_in rtype contents at ≡ of_type 51 rtype (data_in name_at 51 contents at) }
{}

/// The canonical octets of each type are those of its fields under its number (RFC 4034 section 6.2).
pub fn types_are_canonical_by_number()
    ensures nsec { (v : _) → ⟦<Nsec<'static> as CanonicalRecordData>⟧.canonical v ≡ canonical_octets 47 (nsec_fields v) }
    ensures nsec3 { (v : _) → ⟦<Nsec3<'static> as CanonicalRecordData>⟧.canonical v ≡ canonical_octets 50 (nsec3_fields v) }
    ensures nsec3param { (v : _) → ⟦<Nsec3Param<'static> as CanonicalRecordData>⟧.canonical v ≡ canonical_octets 51 (nsec3param_fields v) }
{}
