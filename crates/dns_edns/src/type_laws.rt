//! The type of this crate by the one table: what is read and written for its number is what its RDATA format says.

ghost use Rattle.std.specs.Prelude.{◌≡◌, ℕ, nat_eq};
ghost use Rattle.std.specs.Cmp.Lexicographic.{pointwise};
ghost use Rattle.std.specs.Hash.{slice, u8};
ghost use Rattle.dns_wire.specs.Names.{plain_name};
ghost use Rattle.dns_wire.specs.Octets.{Octets};
ghost use Rattle.dns_wire.specs.Pointers.{name_at};
ghost use Rattle.dns_record.specs.Data.{data_as, data_in, of_type};
ghost use Rattle.dns_record.specs.Fields.{canonical_octets};
ghost use Rattle.dns_edns.specs.Types.{opt_fields};

use crate::opt::Opt;
use dns_record::{CanonicalRecordData, ParseRecordDataBytes};
use std::hash::Hash;

/// Of all the octets, `Opt` reads the field of its number's RDATA format, and for any other number nothing (RFC 6891 section
/// 6.1.2).
pub fn types_are_read_by_number()
    ensures opt { (rtype : ℕ) (bytes : Octets) → ⟦<Opt<'static> as ParseRecordDataBytes<'static>>⟧.reads_as rtype bytes ≡ of_type 41 rtype (data_as plain_name 41 bytes) }
{}

/// The same in a message, from a place to the end of the contents.
pub fn types_are_read_by_number_in_messages()
    ensures opt { (rtype : ℕ) (contents : Octets) (at : ℕ) → ⟦<Opt<'static> as ParseRecordDataBytes<'static>>⟧.reads_in rtype contents at ≡ of_type 41 rtype (data_in name_at 41 contents at) }
{}

/// The canonical octets are those of the field under the type's number (RFC 4034 section 6.2).
pub fn types_are_canonical_by_number()
    ensures opt { (v : _) → ⟦<Opt<'static> as CanonicalRecordData>⟧.canonical v ≡ canonical_octets 41 (opt_fields v.slice.now) }
{}

/// Data are equal octet by octet.
pub fn data_are_equal_by_fields()
    ensures opt { (a b : _) → ⟦<Opt<'static> as PartialEq>⟧.eq a b ≡ pointwise nat_eq a.slice.now b.slice.now }
{}

/// Data feed a hasher their octets after the number of these.
pub fn data_are_hashed_by_fields()
    ensures opt { (v : _) → ⟦<Opt<'static> as Hash>⟧.hash_input v ≡ slice u8 v.slice.now }
{}
