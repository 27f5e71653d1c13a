//! The definitions of character strings in other words.

ghost use Rattle.std.specs.Prelude.{◌≡◌, ◌↔◌, ◌++◌, Some, IsTrue};
ghost use Rattle.std.specs.Str.{str_to_ascii_lowercase};
ghost use Rattle.dns_wire.specs.Octets.{Octets};
ghost use Rattle.dns_wire.specs.Reading.{AreOctets};
ghost use Rattle.dns_record.specs.CharStrs.{FitsCharacterString, charstr_wire, same_charstr};
ghost use Rattle.dns_record.specs.CharacterStrings.{character_string};

/// A string is read exactly if it is on the wire: the number of its octets, which is at most 255, and
/// just these octets (RFC 1035 section 3.3). Two strings are the same exactly if they are so octet by
/// octet in lowercase (RFC 1035 section 2.3.3).
pub fn character_strings()
    ensures spelled { (bytes octets rest : Octets) →
        character_string bytes ≡ Some (octets, rest) → bytes ≡ charstr_wire octets ++ rest }
    ensures read { (octets rest : Octets) → character_string (charstr_wire octets ++ rest) ≡ Some (octets, rest) }
    ensures short { (bytes octets rest : Octets) →
        AreOctets bytes → character_string bytes ≡ Some (octets, rest) → FitsCharacterString octets }
    ensures same { (a b : Octets) →
        IsTrue (same_charstr a b) ↔ (str_to_ascii_lowercase a ≡ str_to_ascii_lowercase b) }
{}
