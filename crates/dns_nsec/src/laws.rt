//! The definitions of this crate in other words.

ghost use Rattle.std.specs.Prelude.{◌≡◌, ◌<◌, ◌^◌, ◌↔◌, slice_index, Contains, ℕ, List, [], true};
ghost use Rattle.std.specs.List.Sorted.{IsStrictlyIncreasing};
ghost use Rattle.dns_wire.specs.Octets.{Octets};
ghost use Rattle.dns_wire.specs.Reading.{AreOctets};
ghost use Rattle.dns_record.specs.TypeBitMaps.{is_bitmap};
ghost use Rattle.dns_nsec.specs.Bitmaps.{IsMarked, types_in};

use crate::hash_algorithm::Nsec3HashAlgorithm;

/// The number of the one algorithm that hashes owners (RFC 5155 section 11).
pub fn code_numbers()
    ensures { Nsec3HashAlgorithm.SHA1.code ≡ 1 }
{}

/// The types of bitmaps (RFC 4034 section 4.1.2): they strictly rise, there is none exactly if there is no
/// window, and bitmaps with the same types have the same octets.
pub fn types_of_bitmaps()
    ensures rise { (bytes : Octets) → is_bitmap bytes ≡ true → IsStrictlyIncreasing (types_in bytes) }
    ensures none { (bytes : Octets) → AreOctets bytes → is_bitmap bytes ≡ true → (types_in bytes ≡ []) ↔ (bytes ≡ []) }
    ensures same { (a b : Octets) → AreOctets a → AreOctets b → is_bitmap a ≡ true → is_bitmap b ≡ true →
        types_in a ≡ types_in b → a ≡ b }
{}

/// A type is among those of a bitmap exactly if its bit in its window is 1 (RFC 4034 section 4.1.2).
pub fn bits_of_bitmaps()
    ensures { (bytes : Octets) (type : ℕ) → is_bitmap bytes ≡ true → Contains (types_in bytes) type ↔ IsMarked bytes type }
{}

/// Every strictly rising list of types has a bitmap whose types it is.
pub fn bitmaps_of_types()
    ensures { (types : List ℕ) → IsStrictlyIncreasing types → ((k : ℕ) → slice_index types k < 2 ^ 16) →
        (bytes : Octets) × (AreOctets bytes × (is_bitmap bytes ≡ true) × (types_in bytes ≡ types)) }
{}
