//! Codes, times, questions and records are compared and fed to a hasher field by field.

ghost use Rattle.std.specs.Prelude.{◌≡◌, [], ◌∷◌, ◌++◌, ◌&&◌, nat_eq, ◌↔◌, IsTrue};
ghost use Rattle.std.specs.Hash.{le_bytes};
ghost use Rattle.std.specs.Ordering.{nat_cmp};

use crate::charstr_error::CharStrParseError;
use crate::field_kind::FieldKind;
use crate::formats::Formats;
use crate::qclass::QClass;
use crate::qtype::QType;
use crate::question::Question;
use crate::rclass::RClass;
use crate::record::Record;
use crate::rtype::RType;
use crate::serial::Serial;
use crate::ttl::TTL;
use std::hash::Hash;

/// Codes, times to live and serial numbers are equal if their numbers are.
pub fn codes_are_equal_by_number()
    ensures rtype { (a b : _) → ⟦<RType as PartialEq>⟧.eq a b ≡ nat_eq a.code.value b.code.value }
    ensures qtype { (a b : _) → ⟦<QType as PartialEq>⟧.eq a b ≡ nat_eq a.code.value b.code.value }
    ensures rclass { (a b : _) → ⟦<RClass as PartialEq>⟧.eq a b ≡ nat_eq a.code.value b.code.value }
    ensures qclass { (a b : _) → ⟦<QClass as PartialEq>⟧.eq a b ≡ nat_eq a.code.value b.code.value }
    ensures ttl { (a b : _) → ⟦<TTL as PartialEq>⟧.eq a b ≡ nat_eq a.value.value b.value.value }
    ensures serial { (a b : _) → ⟦<Serial as PartialEq>⟧.eq a b ≡ nat_eq a.0.value b.0.value }
{}

/// Codes and times to live come in the order of their numbers.
pub fn codes_are_ordered_by_number()
    ensures rtype { (a b : _) → ⟦<RType as Ord>⟧.cmp a b ≡ nat_cmp a.code.value b.code.value }
    ensures qtype { (a b : _) → ⟦<QType as Ord>⟧.cmp a b ≡ nat_cmp a.code.value b.code.value }
    ensures rclass { (a b : _) → ⟦<RClass as Ord>⟧.cmp a b ≡ nat_cmp a.code.value b.code.value }
    ensures qclass { (a b : _) → ⟦<QClass as Ord>⟧.cmp a b ≡ nat_cmp a.code.value b.code.value }
    ensures ttl { (a b : _) → ⟦<TTL as Ord>⟧.cmp a b ≡ nat_cmp a.value.value b.value.value }
{}

/// Codes, times to live and serial numbers feed a hasher their numbers.
pub fn codes_are_hashed_by_number()
    ensures rtype { (v : _) → ⟦<RType as Hash>⟧.hash_input v ≡ le_bytes 2 v.code.value ∷ [] }
    ensures qtype { (v : _) → ⟦<QType as Hash>⟧.hash_input v ≡ le_bytes 2 v.code.value ∷ [] }
    ensures rclass { (v : _) → ⟦<RClass as Hash>⟧.hash_input v ≡ le_bytes 2 v.code.value ∷ [] }
    ensures qclass { (v : _) → ⟦<QClass as Hash>⟧.hash_input v ≡ le_bytes 2 v.code.value ∷ [] }
    ensures ttl { (v : _) → ⟦<TTL as Hash>⟧.hash_input v ≡ le_bytes 4 v.value.value ∷ [] }
    ensures serial { (v : _) → ⟦<Serial as Hash>⟧.hash_input v ≡ le_bytes 4 v.0.value ∷ [] }
{}

/// Questions are equal if name, type and class are, and records if owner, type, class, TTL and data are.
pub fn items_are_equal_by_fields<N: PartialEq, D: PartialEq>()
    ensures question { (a b : _) → ⟦<Question<N> as PartialEq>⟧.eq a b
        ≡ (N.eq a.qname b.qname && (nat_eq a.qtype.code.value b.qtype.code.value && nat_eq a.qclass.code.value b.qclass.code.value)) }
    ensures found { (a b : _) → ⟦<Record<N, D> as PartialEq>⟧.eq a b
        ≡ (N.eq a.rname b.rname && (nat_eq a.rtype.code.value b.rtype.code.value && (nat_eq a.rclass.code.value b.rclass.code.value
        && (nat_eq a.ttl.value.value b.ttl.value.value && D.eq a.rdata b.rdata)))) }
{}

/// Questions and records feed a hasher these fields one after another.
pub fn items_are_hashed_by_fields<N: Hash, D: Hash>()
    ensures question { (v : _) → ⟦<Question<N> as Hash>⟧.hash_input v
        ≡ N.hash_input v.qname ++ (le_bytes 2 v.qtype.code.value ∷ le_bytes 2 v.qclass.code.value ∷ []) }
    ensures found { (v : _) → ⟦<Record<N, D> as Hash>⟧.hash_input v
        ≡ N.hash_input v.rname ++ (le_bytes 2 v.rtype.code.value ∷ le_bytes 2 v.rclass.code.value ∷ le_bytes 4 v.ttl.value.value ∷ D.hash_input v.rdata) }
{}

/// Errors are equal exactly if they are the same.
pub fn equal_errors()
    ensures character_string { (a b : _) → IsTrue (⟦<CharStrParseError as PartialEq>⟧.eq a b) ↔ (a ≡ b) }
{}

/// Kinds of fields are equal exactly if they are the same, and so are the two choices of formats.
pub fn equal_formats()
    ensures kind { (a b : _) → IsTrue (⟦<FieldKind as PartialEq>⟧.eq a b) ↔ (a ≡ b) }
    ensures formats { (a b : _) → IsTrue (⟦<Formats as PartialEq>⟧.eq a b) ↔ (a ≡ b) }
{}
