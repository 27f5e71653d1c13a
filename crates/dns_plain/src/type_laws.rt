//! The types of this crate by the one table: what is read and written for the number of each is what its RDATA format says.

ghost use Rattle.std.specs.Prelude.{◌≡◌, ℕ};
ghost use Rattle.dns_wire.specs.Names.{plain_name};
ghost use Rattle.dns_wire.specs.Octets.{Octets};
ghost use Rattle.dns_wire.specs.Pointers.{name_at};
ghost use Rattle.dns_record.specs.Data.{data_as, data_in, of_type};
ghost use Rattle.dns_record.specs.Fields.{canonical_octets};
ghost use Rattle.dns_plain.specs.Types.{a_fields, hinfo_fields, txt_fields, aaaa_fields, srv_fields, dname_fields};

use crate::a::A;
use crate::aaaa::Aaaa;
use crate::dname::DName;
use crate::hinfo::HInfo;
use crate::srv::Srv;
use crate::txt::Txt;
use dns_record::{CanonicalRecordData, ParseRecordDataBytes};

/// Of all the octets, each type reads the fields of its number's RDATA format, and for any other number nothing (RFC 1035
/// sections 3.3 and 3.4, RFC 2782, RFC 3596 section 2.2, RFC 6672 section 2.1).
pub fn types_are_read_by_number()
    ensures a { (rtype : ℕ) (bytes : Octets) → ⟦<A as ParseRecordDataBytes<'static>>⟧.reads_as rtype bytes ≡ of_type 1 rtype (data_as plain_name 1 bytes) }
    ensures hinfo { (rtype : ℕ) (bytes : Octets) → ⟦<HInfo<'static> as ParseRecordDataBytes<'static>>⟧.reads_as rtype bytes ≡ of_type 13 rtype (data_as plain_name 13 bytes) }
    ensures txt { (rtype : ℕ) (bytes : Octets) → ⟦<Txt<'static> as ParseRecordDataBytes<'static>>⟧.reads_as rtype bytes ≡ of_type 16 rtype (data_as plain_name 16 bytes) }
    ensures aaaa { (rtype : ℕ) (bytes : Octets) → ⟦<Aaaa as ParseRecordDataBytes<'static>>⟧.reads_as rtype bytes ≡ of_type 28 rtype (data_as plain_name 28 bytes) }
    ensures srv { (rtype : ℕ) (bytes : Octets) → ⟦<Srv<'static> as ParseRecordDataBytes<'static>>⟧.reads_as rtype bytes ≡ of_type 33 rtype (data_as plain_name 33 bytes) }
    ensures dname { (rtype : ℕ) (bytes : Octets) → ⟦<DName<'static> as ParseRecordDataBytes<'static>>⟧.reads_as rtype bytes ≡ of_type 39 rtype (data_as plain_name 39 bytes) }
{}

/// The same in a message, from a place to the end of the contents.
pub fn types_are_read_by_number_in_messages()
    ensures a { (rtype : ℕ) (contents : Octets) (at : ℕ) → ⟦<A as ParseRecordDataBytes<'static>>⟧.reads_in rtype contents at ≡ of_type 1 rtype (data_in name_at 1 contents at) }
    ensures hinfo { (rtype : ℕ) (contents : Octets) (at : ℕ) → ⟦<HInfo<'static> as ParseRecordDataBytes<'static>>⟧.reads_in rtype contents at ≡ of_type 13 rtype (data_in name_at 13 contents at) }
    ensures txt { (rtype : ℕ) (contents : Octets) (at : ℕ) → ⟦<Txt<'static> as ParseRecordDataBytes<'static>>⟧.reads_in rtype contents at ≡ of_type 16 rtype (data_in name_at 16 contents at) }
    ensures aaaa { (rtype : ℕ) (contents : Octets) (at : ℕ) → ⟦<Aaaa as ParseRecordDataBytes<'static>>⟧.reads_in rtype contents at ≡ of_type 28 rtype (data_in name_at 28 contents at) }
    ensures srv { (rtype : ℕ) (contents : Octets) (at : ℕ) → ⟦<Srv<'static> as ParseRecordDataBytes<'static>>⟧.reads_in rtype contents at ≡ of_type 33 rtype (data_in name_at 33 contents at) }
    ensures dname { (rtype : ℕ) (contents : Octets) (at : ℕ) → ⟦<DName<'static> as ParseRecordDataBytes<'static>>⟧.reads_in rtype contents at ≡ of_type 39 rtype (data_in name_at 39 contents at) }
{}

/// The canonical octets of each type are those of its fields under its number (RFC 4034 section 6.2).
pub fn types_are_canonical_by_number()
    ensures a { (v : _) → ⟦<A as CanonicalRecordData>⟧.canonical v ≡ canonical_octets 1 (a_fields v) }
    ensures hinfo { (v : _) → ⟦<HInfo<'static> as CanonicalRecordData>⟧.canonical v ≡ canonical_octets 13 (hinfo_fields v) }
    ensures txt { (v : _) → ⟦<Txt<'static> as CanonicalRecordData>⟧.canonical v ≡ canonical_octets 16 (txt_fields v.slice.now) }
    ensures aaaa { (v : _) → ⟦<Aaaa as CanonicalRecordData>⟧.canonical v ≡ canonical_octets 28 (aaaa_fields v) }
    ensures srv { (v : _) → ⟦<Srv<'static> as CanonicalRecordData>⟧.canonical v ≡ canonical_octets 33 (srv_fields v) }
    ensures dname { (v : _) → ⟦<DName<'static> as CanonicalRecordData>⟧.canonical v ≡ canonical_octets 39 (dname_fields v) }
{}
