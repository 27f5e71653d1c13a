//! Data are compared and fed to a hasher field by field, in the order in which the fields come on the wire.

ghost use Rattle.std.specs.Prelude.{◌≡◌};
ghost use Rattle.std.specs.Ordering.{eq_by_cmp, on};
ghost use Rattle.dns_name.specs.Hashing.{name_writes};
ghost use Rattle.dns_name.specs.Order.{key, key_cmp};
ghost use Rattle.dns_record.specs.FieldOrder.{fields_cmp, fields_eq, fields_writes};
ghost use Rattle.dns_basic.specs.Types.{ns_fields, cname_fields, soa_fields, ptr_fields, mx_fields, rp_fields};

use crate::cname::CName;
use crate::mx::Mx;
use crate::ns::Ns;
use crate::ptr::Ptr;
use crate::rp::Rp;
use crate::soa::Soa;
use std::hash::Hash;

/// The first field that differs decides the order, in the order of the wire: of MX the preference comes before the
/// exchange (RFC 1035 section 3.3.9). Names have the order of their type.
pub fn data_are_ordered_by_fields<N: Ord>()
    ensures ns { (a b : _) → ⟦<Ns<N> as Ord>⟧.cmp a b ≡ fields_cmp N.cmp (on key key_cmp) (ns_fields a) (ns_fields b) }
    ensures cname { (a b : _) → ⟦<CName<N> as Ord>⟧.cmp a b ≡ fields_cmp N.cmp (on key key_cmp) (cname_fields a) (cname_fields b) }
    ensures ptr { (a b : _) → ⟦<Ptr<N> as Ord>⟧.cmp a b ≡ fields_cmp N.cmp (on key key_cmp) (ptr_fields a) (ptr_fields b) }
    ensures mx { (a b : _) → ⟦<Mx<N> as Ord>⟧.cmp a b ≡ fields_cmp N.cmp (on key key_cmp) (mx_fields a) (mx_fields b) }
{}

/// Data are equal if all their fields are, names as their type says.
pub fn data_are_equal_by_fields<N: PartialEq>()
    ensures ns { (a b : _) → ⟦<Ns<N> as PartialEq>⟧.eq a b ≡ fields_eq N.eq (eq_by_cmp (on key key_cmp)) (ns_fields a) (ns_fields b) }
    ensures cname { (a b : _) → ⟦<CName<N> as PartialEq>⟧.eq a b ≡ fields_eq N.eq (eq_by_cmp (on key key_cmp)) (cname_fields a) (cname_fields b) }
    ensures soa { (a b : _) → ⟦<Soa<N> as PartialEq>⟧.eq a b ≡ fields_eq N.eq (eq_by_cmp (on key key_cmp)) (soa_fields a) (soa_fields b) }
    ensures ptr { (a b : _) → ⟦<Ptr<N> as PartialEq>⟧.eq a b ≡ fields_eq N.eq (eq_by_cmp (on key key_cmp)) (ptr_fields a) (ptr_fields b) }
    ensures mx { (a b : _) → ⟦<Mx<N> as PartialEq>⟧.eq a b ≡ fields_eq N.eq (eq_by_cmp (on key key_cmp)) (mx_fields a) (mx_fields b) }
    ensures rp { (a b : _) → ⟦<Rp<N> as PartialEq>⟧.eq a b ≡ fields_eq N.eq (eq_by_cmp (on key key_cmp)) (rp_fields a) (rp_fields b) }
{}

/// Data feed a hasher their fields one after another, names as their type says.
pub fn data_are_hashed_by_fields<N: Hash>()
    ensures ns { (v : _) → ⟦<Ns<N> as Hash>⟧.hash_input v ≡ fields_writes N.hash_input name_writes (ns_fields v) }
    ensures cname { (v : _) → ⟦<CName<N> as Hash>⟧.hash_input v ≡ fields_writes N.hash_input name_writes (cname_fields v) }
    ensures soa { (v : _) → ⟦<Soa<N> as Hash>⟧.hash_input v ≡ fields_writes N.hash_input name_writes (soa_fields v) }
    ensures ptr { (v : _) → ⟦<Ptr<N> as Hash>⟧.hash_input v ≡ fields_writes N.hash_input name_writes (ptr_fields v) }
    ensures mx { (v : _) → ⟦<Mx<N> as Hash>⟧.hash_input v ≡ fields_writes N.hash_input name_writes (mx_fields v) }
    ensures rp { (v : _) → ⟦<Rp<N> as Hash>⟧.hash_input v ≡ fields_writes N.hash_input name_writes (rp_fields v) }
{}
