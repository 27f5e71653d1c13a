//! The types of this crate by the one table: what is read and written for the number of each is what its RDATA format says.

ghost use Rattle.std.specs.Prelude.{◌≡◌, ℕ, List, Some, map};
ghost use Rattle.dns_wire.specs.Names.{plain_name};
ghost use Rattle.dns_wire.specs.Octets.{Octets};
ghost use Rattle.dns_wire.specs.Pointers.{name_at};
ghost use Rattle.dns_record.specs.Data.{data_as, data_in, of_type};
ghost use Rattle.dns_record.specs.Fields.{FieldOf, named_by, canonical_octets};
ghost use Rattle.dns_basic.specs.Types.{ns_fields, cname_fields, soa_fields, ptr_fields, mx_fields, rp_fields};

use crate::cname::CName;
use crate::mx::Mx;
use crate::ns::Ns;
use crate::ptr::Ptr;
use crate::rp::Rp;
use crate::soa::Soa;
use dns_name::{CanonicalName, ReadMessageName, ReadName};
use dns_record::{CanonicalRecordData, ParseRecordDataBytes};
use dns_wire::ParseName;

/// Of all the octets, each type reads the fields of its number's RDATA format, and for any other number nothing (RFC 1035
/// section 3.3, RFC 1183 section 2.2). Names are read as their type reads them.
pub fn types_are_read_by_number<'a, N: ParseName<'a>>()
    ensures ns { (rtype : ℕ) (bytes : Octets) → ⟦<Ns<N> as ParseRecordDataBytes<'a>>⟧.reads_as rtype bytes ≡ of_type 2 rtype (data_as N.reads 2 bytes) }
    ensures cname { (rtype : ℕ) (bytes : Octets) → ⟦<CName<N> as ParseRecordDataBytes<'a>>⟧.reads_as rtype bytes ≡ of_type 5 rtype (data_as N.reads 5 bytes) }
    ensures soa { (rtype : ℕ) (bytes : Octets) → ⟦<Soa<N> as ParseRecordDataBytes<'a>>⟧.reads_as rtype bytes ≡ of_type 6 rtype (data_as N.reads 6 bytes) }
    ensures ptr { (rtype : ℕ) (bytes : Octets) → ⟦<Ptr<N> as ParseRecordDataBytes<'a>>⟧.reads_as rtype bytes ≡ of_type 12 rtype (data_as N.reads 12 bytes) }
    ensures mx { (rtype : ℕ) (bytes : Octets) → ⟦<Mx<N> as ParseRecordDataBytes<'a>>⟧.reads_as rtype bytes ≡ of_type 15 rtype (data_as N.reads 15 bytes) }
    ensures rp { (rtype : ℕ) (bytes : Octets) → ⟦<Rp<N> as ParseRecordDataBytes<'a>>⟧.reads_as rtype bytes ≡ of_type 17 rtype (data_as N.reads 17 bytes) }
{}

/// The same in a message, from a place to the end of the contents.
pub fn types_are_read_by_number_in_messages<'a, N: ParseName<'a>>()
    ensures ns { (rtype : ℕ) (contents : Octets) (at : ℕ) → ⟦<Ns<N> as ParseRecordDataBytes<'a>>⟧.reads_in rtype contents at ≡ of_type 2 rtype (data_in N.reads_at 2 contents at) }
    ensures cname { (rtype : ℕ) (contents : Octets) (at : ℕ) → ⟦<CName<N> as ParseRecordDataBytes<'a>>⟧.reads_in rtype contents at ≡ of_type 5 rtype (data_in N.reads_at 5 contents at) }
    ensures soa { (rtype : ℕ) (contents : Octets) (at : ℕ) → ⟦<Soa<N> as ParseRecordDataBytes<'a>>⟧.reads_in rtype contents at ≡ of_type 6 rtype (data_in N.reads_at 6 contents at) }
    ensures ptr { (rtype : ℕ) (contents : Octets) (at : ℕ) → ⟦<Ptr<N> as ParseRecordDataBytes<'a>>⟧.reads_in rtype contents at ≡ of_type 12 rtype (data_in N.reads_at 12 contents at) }
    ensures mx { (rtype : ℕ) (contents : Octets) (at : ℕ) → ⟦<Mx<N> as ParseRecordDataBytes<'a>>⟧.reads_in rtype contents at ≡ of_type 15 rtype (data_in N.reads_at 15 contents at) }
    ensures rp { (rtype : ℕ) (contents : Octets) (at : ℕ) → ⟦<Rp<N> as ParseRecordDataBytes<'a>>⟧.reads_in rtype contents at ≡ of_type 17 rtype (data_in N.reads_at 17 contents at) }
{}

/// The canonical octets of each type are those of its fields under its number (RFC 4034 section 6.2).
pub fn types_are_canonical_by_number<N: CanonicalName>()
    ensures ns { (v : _) → ⟦<Ns<N> as CanonicalRecordData>⟧.canonical v ≡ canonical_octets 2 (map (named_by N.name) (ns_fields v)) }
    ensures cname { (v : _) → ⟦<CName<N> as CanonicalRecordData>⟧.canonical v ≡ canonical_octets 5 (map (named_by N.name) (cname_fields v)) }
    ensures soa { (v : _) → ⟦<Soa<N> as CanonicalRecordData>⟧.canonical v ≡ canonical_octets 6 (map (named_by N.name) (soa_fields v)) }
    ensures ptr { (v : _) → ⟦<Ptr<N> as CanonicalRecordData>⟧.canonical v ≡ canonical_octets 12 (map (named_by N.name) (ptr_fields v)) }
    ensures mx { (v : _) → ⟦<Mx<N> as CanonicalRecordData>⟧.canonical v ≡ canonical_octets 15 (map (named_by N.name) (mx_fields v)) }
    ensures rp { (v : _) → ⟦<Rp<N> as CanonicalRecordData>⟧.canonical v ≡ canonical_octets 17 (map (named_by N.name) (rp_fields v)) }
{}

/// If the names of data were read whole, the names that are written are at the place where the data were read: the fields with the
/// labels that are written are what the octets spell for the number.
pub fn names_that_are_read_are_written<'a, N: ReadName<'a>>()
    ensures { (rtype : ℕ) (bytes : Octets) (fields : List (FieldOf N)) →
        data_as N.reads rtype bytes ≡ Some (map (named_by N.seen) fields) →
        data_as plain_name rtype bytes ≡ Some (map (named_by N.name) fields) }
{}

/// The same in a message, where the names' pointers are followed (RFC 1035 section 4.1.4).
pub fn names_that_are_read_in_messages_are_written<'a, N: ReadMessageName<'a>>()
    ensures { (rtype : ℕ) (contents : Octets) (at : ℕ) (fields : List (FieldOf N)) →
        data_in N.reads_at rtype contents at ≡ Some (map (named_by N.seen) fields) →
        data_in name_at rtype contents at ≡ Some (map (named_by N.name) fields) }
{}
