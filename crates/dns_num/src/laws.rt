//! The definitions of this crate in other words.

ghost use Rattle.std.specs.Prelude.{◌≡◌, ◌↔◌, length, ◌+◌, ◌*◌, ◌<◌, ◌^◌, ◌∷◌, ◌++◌, ℕ, Some};
ghost use Rattle.std.specs.Int.{w16, w32, w64, byte_len, to_be_bytes};
ghost use Rattle.dns_wire.specs.Octets.{Octets};
ghost use Rattle.dns_wire.specs.Reading.{AreOctets, number, all_of};
ghost use Rattle.dns_num.specs.Prefixed.{sized, prefixed, prefixed_at, PrefixedAt};

use crate::size_prefix::SizePrefix;
use dns_wire::ParseBytes;

/// Each octet of a number is worth 256 times as much as the one after it (RFC 1035 section 2.3.2), and
/// what is written is read back.
pub fn wire_numbers()
    ensures two_octets { (a b : ℕ) (rest : Octets) → number w16 (a ∷ b ∷ rest) ≡ Some (a * 256 + b, rest) }
    ensures four_octets { (a b c d : ℕ) (rest : Octets) →
        number w32 (a ∷ b ∷ c ∷ d ∷ rest) ≡ Some (((a * 256 + b) * 256 + c) * 256 + d, rest) }
    ensures eight_octets { (a b c d e f g h : ℕ) (rest : Octets) →
        number w64 (a ∷ b ∷ c ∷ d ∷ e ∷ f ∷ g ∷ h ∷ rest)
        ≡ Some (((((((a * 256 + b) * 256 + c) * 256 + d) * 256 + e) * 256 + f) * 256 + g) * 256 + h, rest) }
    ensures two_back { (n : ℕ) (rest : Octets) → n < 2 ^ 16 → number w16 (to_be_bytes w16 n ++ rest) ≡ Some (n, rest) }
    ensures four_back { (n : ℕ) (rest : Octets) → n < 2 ^ 32 → number w32 (to_be_bytes w32 n ++ rest) ≡ Some (n, rest) }
    ensures eight_back { (n : ℕ) (rest : Octets) → n < 2 ^ 64 → number w64 (to_be_bytes w64 n ++ rest) ≡ Some (n, rest) }
{}

/// Prefixed data are read exactly if they are there as they are written: the number of their octets before, and
/// after it just these octets. In a message it is the same from the place on.
pub fn prefixed_data<'a, S: SizePrefix, T: ParseBytes<'a>>()
    ensures read { (content rest : Octets) (value : T.Seen) → length content < 256 ^ byte_len S.number_width →
        all_of (T.reads content) ≡ Some value →
        prefixed S.number_width T.reads (sized S.number_width content ++ rest) ≡ Some (value, rest) }
    ensures occur { (bytes rest : Octets) (value : T.Seen) → AreOctets bytes →
        prefixed S.number_width T.reads bytes ≡ Some (value, rest) →
        (content : Octets) × (length content < 256 ^ byte_len S.number_width)
        × (bytes ≡ sized S.number_width content ++ rest) × (all_of (T.reads content) ≡ Some value) }
    ensures in_messages { (contents : Octets) (at : ℕ) (value : T.Seen) (end : ℕ) → AreOctets contents →
        (prefixed_at S.number_width T.reads_at contents at ≡ Some (value, end)) ↔ PrefixedAt S.number_width T.reads_at contents at value end }
{}
