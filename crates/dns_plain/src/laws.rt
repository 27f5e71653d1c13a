//! The definitions of strings in other words.

ghost use Rattle.std.specs.Prelude.{◌≡◌, ◌≢◌, ◌↔◌, List, [], IsTrue};
ghost use Rattle.dns_wire.specs.Names.{lowered};
ghost use Rattle.dns_record.specs.CharacterStrings.{is_txt_data, character_strings_octets};
ghost use Rattle.dns_record.specs.Strings.{same_strings, strings_in};
ghost use Rattle.dns_wire.specs.Octets.{Octets, Labels};

/// TXT data are the octets of their strings, each after its size, and have at least one string; of such octets
/// the strings are just these (RFC 1035 section 3.3.14). Lists of strings are the same exactly if they are
/// equal in lowercase (RFC 1035 section 2.3.3).
pub fn strings_of_character_strings()
    ensures whole { (bytes : Octets) → IsTrue (is_txt_data bytes) → character_strings_octets (strings_in bytes) ≡ bytes }
    ensures one { (bytes : Octets) → IsTrue (is_txt_data bytes) → strings_in bytes ≢ [] }
    ensures read { (strings : List Octets) → strings_in (character_strings_octets strings) ≡ strings }
    ensures same { (a b : Labels) → IsTrue (same_strings a b) ↔ (lowered a ≡ lowered b) }
{}
