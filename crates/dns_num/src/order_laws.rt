//! Numbers are compared and fed to a hasher by their values, and prefixed data by their data.

ghost use Rattle.std.specs.Prelude.{◌≡◌, [], ◌∷◌, nat_eq};
ghost use Rattle.std.specs.Hash.{le_bytes};
ghost use Rattle.std.specs.Ordering.{nat_cmp};

use crate::number16::U16;
use crate::number32::U32;
use crate::number64::U64;
use crate::size_prefixed::SizePrefixed;
use std::hash::Hash;

/// Numbers are equal if their values are.
pub fn numbers_are_equal_by_value()
    ensures two_octets { (a b : _) → ⟦<U16 as PartialEq>⟧.eq a b ≡ nat_eq a.value b.value }
    ensures four_octets { (a b : _) → ⟦<U32 as PartialEq>⟧.eq a b ≡ nat_eq a.value b.value }
    ensures eight_octets { (a b : _) → ⟦<U64 as PartialEq>⟧.eq a b ≡ nat_eq a.value b.value }
{}

/// Numbers come in the order of their values.
pub fn numbers_are_ordered_by_value()
    ensures two_octets { (a b : _) → ⟦<U16 as Ord>⟧.cmp a b ≡ nat_cmp a.value b.value }
    ensures four_octets { (a b : _) → ⟦<U32 as Ord>⟧.cmp a b ≡ nat_cmp a.value b.value }
    ensures eight_octets { (a b : _) → ⟦<U64 as Ord>⟧.cmp a b ≡ nat_cmp a.value b.value }
{}

/// Numbers feed a hasher their values.
pub fn numbers_are_hashed_by_value()
    ensures two_octets { (v : _) → ⟦<U16 as Hash>⟧.hash_input v ≡ le_bytes 2 v.value ∷ [] }
    ensures four_octets { (v : _) → ⟦<U32 as Hash>⟧.hash_input v ≡ le_bytes 4 v.value ∷ [] }
    ensures eight_octets { (v : _) → ⟦<U64 as Hash>⟧.hash_input v ≡ le_bytes 8 v.value ∷ [] }
{}

/// Numbers are 0 by default.
pub fn numbers_are_zero_by_default()
    ensures two_octets { (v : _) → ⟦<U16 as Default>⟧.is_default v → v.value ≡ 0 }
    ensures four_octets { (v : _) → ⟦<U32 as Default>⟧.is_default v → v.value ≡ 0 }
    ensures eight_octets { (v : _) → ⟦<U64 as Default>⟧.is_default v → v.value ≡ 0 }
{}

/// Prefixed data are equal, ordered and fed to a hasher as the data are: the prefix has no part in it.
pub fn prefixed_data_are_compared_by_data<S: Ord + Hash, T: Ord + Hash>()
    ensures equal { (a b : T) → ⟦<SizePrefixed<S, T> as PartialEq>⟧.eq a b ≡ T.eq a b }
    ensures ordered { (a b : T) → ⟦<SizePrefixed<S, T> as Ord>⟧.cmp a b ≡ T.cmp a b }
    ensures hashed { (v : T) → ⟦<SizePrefixed<S, T> as Hash>⟧.hash_input v ≡ T.hash_input v }
{}
