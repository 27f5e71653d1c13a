//! Data are compared and fed to a hasher field by field, in the order in which the fields come on the wire.

ghost use Rattle.std.specs.Prelude.{◌≡◌, nat_eq};
ghost use Rattle.std.specs.Ordering.{eq_by_cmp, nat_cmp, on};
ghost use Rattle.std.specs.Cmp.Lexicographic.{pointwise};
ghost use Rattle.std.specs.Hash.{slice, u8};
ghost use Rattle.dns_name.specs.Hashing.{name_writes};
ghost use Rattle.dns_name.specs.Order.{key, key_cmp};
ghost use Rattle.dns_record.specs.FieldOrder.{fields_eq, fields_writes};
ghost use Rattle.dns_nsec.specs.Flags.{nsec3_flag_bits};
ghost use Rattle.dns_nsec.specs.Types.{nsec_fields, nsec3_fields, nsec3param_fields};

use crate::bitmaps::TypeBitmaps;
use crate::flags::Nsec3Flags;
use crate::hash_algorithm::Nsec3HashAlgorithm;
use crate::nsec::Nsec;
use crate::nsec3::Nsec3;
use crate::nsec3param::Nsec3Param;
use std::hash::Hash;

/// Data are equal if all their fields are, names without regard to ASCII case (RFC 1035 section 2.3.3), salts,
/// hashes and bitmaps octet by octet.
pub fn data_are_equal_by_fields()
    ensures nsec { (a b : _) → ⟦<Nsec<'static> as PartialEq>⟧.eq a b ≡ fields_eq (eq_by_cmp (on key key_cmp)) (eq_by_cmp (on key key_cmp)) (nsec_fields a) (nsec_fields b) }
    ensures nsec3 { (a b : _) → ⟦<Nsec3<'static> as PartialEq>⟧.eq a b ≡ fields_eq (eq_by_cmp (on key key_cmp)) (eq_by_cmp (on key key_cmp)) (nsec3_fields a) (nsec3_fields b) }
    ensures nsec3param { (a b : _) → ⟦<Nsec3Param<'static> as PartialEq>⟧.eq a b ≡ fields_eq (eq_by_cmp (on key key_cmp)) (eq_by_cmp (on key key_cmp)) (nsec3param_fields a) (nsec3param_fields b) }
{}

/// Type bit maps are equal octet by octet.
pub fn bitmaps_are_equal_by_octets()
    ensures { (a b : _) → ⟦<TypeBitmaps<'static> as PartialEq>⟧.eq a b ≡ pointwise nat_eq a.slice.now b.slice.now }
{}

/// Data feed a hasher their fields one after another, names in lowercase.
pub fn data_are_hashed_by_fields()
    ensures nsec { (v : _) → ⟦<Nsec<'static> as Hash>⟧.hash_input v ≡ fields_writes name_writes name_writes (nsec_fields v) }
    ensures nsec3 { (v : _) → ⟦<Nsec3<'static> as Hash>⟧.hash_input v ≡ fields_writes name_writes name_writes (nsec3_fields v) }
    ensures nsec3param { (v : _) → ⟦<Nsec3Param<'static> as Hash>⟧.hash_input v ≡ fields_writes name_writes name_writes (nsec3param_fields v) }
{}

/// Type bit maps feed a hasher their octets after the number of these.
pub fn bitmaps_are_hashed_by_octets()
    ensures { (v : _) → ⟦<TypeBitmaps<'static> as Hash>⟧.hash_input v ≡ slice u8 v.slice.now }
{}

/// Hash algorithms are equal, and come in order, by their numbers; flags are equal where their bits are.
pub fn codes_are_compared_by_number()
    ensures equal { (a b : _) → ⟦<Nsec3HashAlgorithm as PartialEq>⟧.eq a b ≡ nat_eq a.code b.code }
    ensures order { (a b : _) → ⟦<Nsec3HashAlgorithm as Ord>⟧.cmp a b ≡ nat_cmp a.code b.code }
    ensures flags { (a b : _) → ⟦<Nsec3Flags as PartialEq>⟧.eq a b ≡ nat_eq (nsec3_flag_bits a) (nsec3_flag_bits b) }
{}

/// Hash algorithms and flags feed a hasher their numbers.
pub fn codes_are_hashed_by_number()
    ensures algorithm { (v : _) → ⟦<Nsec3HashAlgorithm as Hash>⟧.hash_input v ≡ u8 v.code }
    ensures flags { (v : _) → ⟦<Nsec3Flags as Hash>⟧.hash_input v ≡ u8 (nsec3_flag_bits v) }
{}

/// The flags by default have no bit (RFC 5155 section 3.1.2).
pub fn default_flags()
    ensures { (v : _) → ⟦<Nsec3Flags as Default>⟧.is_default v → nsec3_flag_bits v ≡ 0 }
{}
