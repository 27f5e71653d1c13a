//! Data are compared and fed to a hasher field by field, in the order in which the fields come on the wire.

ghost use Rattle.std.specs.Prelude.{◌≡◌, ◌↔◌, IsTrue};
ghost use Rattle.std.specs.Ordering.{eq_by_cmp, on};
ghost use Rattle.dns_name.specs.Hashing.{name_writes};
ghost use Rattle.dns_name.specs.Order.{key, key_cmp};
ghost use Rattle.dns_record.specs.FieldOrder.{fields_cmp, fields_eq, fields_writes};
ghost use Rattle.dns_plain.specs.Types.{a_fields, hinfo_fields, txt_fields, aaaa_fields, srv_fields, dname_fields};

use crate::a::A;
use crate::aaaa::Aaaa;
use crate::addr_error::AddrParseError;
use crate::dname::DName;
use crate::hinfo::HInfo;
use crate::srv::Srv;
use crate::txt::Txt;
use std::hash::Hash;

/// The first field that differs decides the order, in the order of the wire: of SRV the priority, the weight, the
/// port, and then the target (RFC 2782). Names have the order of RFC 4034 section 6.1.
pub fn data_are_ordered_by_fields()
    ensures a { (a b : _) → ⟦<A as Ord>⟧.cmp a b ≡ fields_cmp (on key key_cmp) (on key key_cmp) (a_fields a) (a_fields b) }
    ensures aaaa { (a b : _) → ⟦<Aaaa as Ord>⟧.cmp a b ≡ fields_cmp (on key key_cmp) (on key key_cmp) (aaaa_fields a) (aaaa_fields b) }
    ensures srv { (a b : _) → ⟦<Srv<'static> as Ord>⟧.cmp a b ≡ fields_cmp (on key key_cmp) (on key key_cmp) (srv_fields a) (srv_fields b) }
    ensures dname { (a b : _) → ⟦<DName<'static> as Ord>⟧.cmp a b ≡ fields_cmp (on key key_cmp) (on key key_cmp) (dname_fields a) (dname_fields b) }
{}

/// Data are equal if all their fields are, names and strings without regard to ASCII case (RFC 1035 section
/// 2.3.3).
pub fn data_are_equal_by_fields()
    ensures a { (a b : _) → ⟦<A as PartialEq>⟧.eq a b ≡ fields_eq (eq_by_cmp (on key key_cmp)) (eq_by_cmp (on key key_cmp)) (a_fields a) (a_fields b) }
    ensures hinfo { (a b : _) → ⟦<HInfo<'static> as PartialEq>⟧.eq a b ≡ fields_eq (eq_by_cmp (on key key_cmp)) (eq_by_cmp (on key key_cmp)) (hinfo_fields a) (hinfo_fields b) }
    ensures aaaa { (a b : _) → ⟦<Aaaa as PartialEq>⟧.eq a b ≡ fields_eq (eq_by_cmp (on key key_cmp)) (eq_by_cmp (on key key_cmp)) (aaaa_fields a) (aaaa_fields b) }
    ensures srv { (a b : _) → ⟦<Srv<'static> as PartialEq>⟧.eq a b ≡ fields_eq (eq_by_cmp (on key key_cmp)) (eq_by_cmp (on key key_cmp)) (srv_fields a) (srv_fields b) }
    ensures dname { (a b : _) → ⟦<DName<'static> as PartialEq>⟧.eq a b ≡ fields_eq (eq_by_cmp (on key key_cmp)) (eq_by_cmp (on key key_cmp)) (dname_fields a) (dname_fields b) }
    ensures txt { (a b : _) → ⟦<Txt<'static> as PartialEq>⟧.eq a b ≡ fields_eq (eq_by_cmp (on key key_cmp)) (eq_by_cmp (on key key_cmp)) (txt_fields a.slice.now) (txt_fields b.slice.now) }
{}

/// Data feed a hasher their fields one after another, names and strings in lowercase.
pub fn data_are_hashed_by_fields()
    ensures a { (v : _) → ⟦<A as Hash>⟧.hash_input v ≡ fields_writes name_writes name_writes (a_fields v) }
    ensures hinfo { (v : _) → ⟦<HInfo<'static> as Hash>⟧.hash_input v ≡ fields_writes name_writes name_writes (hinfo_fields v) }
    ensures aaaa { (v : _) → ⟦<Aaaa as Hash>⟧.hash_input v ≡ fields_writes name_writes name_writes (aaaa_fields v) }
    ensures srv { (v : _) → ⟦<Srv<'static> as Hash>⟧.hash_input v ≡ fields_writes name_writes name_writes (srv_fields v) }
    ensures dname { (v : _) → ⟦<DName<'static> as Hash>⟧.hash_input v ≡ fields_writes name_writes name_writes (dname_fields v) }
    ensures txt { (v : _) → ⟦<Txt<'static> as Hash>⟧.hash_input v ≡ fields_writes name_writes name_writes (txt_fields v.slice.now) }
{}

/// Errors are equal exactly if they are the same.
pub fn equal_errors()
    ensures address { (a b : _) → IsTrue (⟦<AddrParseError as PartialEq>⟧.eq a b) ↔ (a ≡ b) }
{}
