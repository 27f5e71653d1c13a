//! The definitions of this crate in other words, when errors are equal, and how large texts are.

ghost use Rattle.std.specs.Prelude.{◌≡◌, ◌↔◌, Some, flat_map, IsTrue};
ghost use Rattle.dns_wire.specs.Octets.{Octets};
ghost use Rattle.dns_wire.specs.Reading.{AreOctets};
ghost use Rattle.dns_text.specs.Hexadecimal.{ArePairs, Trimmed, shown, spelled, trim};

use crate::error::{HexError, TextError};
use crate::io::traits::Failed;
use crate::process::WordsError;
use crate::transfer::{MESSAGE_TEXT_LIMIT, READ_CHUNK};

/// Of a text in hexadecimal, the spaces, tabs, CR and LF at its end are left out, and nothing else is.
pub fn trimmed_text()
    ensures trims { (text : Octets) → Trimmed text (trim text) }
    ensures one { (text left : Octets) → Trimmed text left → left ≡ trim text }
{}

/// A text spells octets exactly if it is pairs of digits, letters in lowercase or capitals (RFC 4648
/// section 8). What is written in hexadecimal is read back, and what a text spells is octets.
pub fn hexadecimal_text()
    ensures back { (octets : Octets) → AreOctets octets → spelled (flat_map shown octets) ≡ Some octets }
    ensures octets { (text octets : Octets) → spelled text ≡ Some octets → AreOctets octets }
    ensures pairs { (text octets : Octets) → (spelled text ≡ Some octets) ↔ ArePairs text octets }
{}

/// Errors are equal exactly if they are the same.
pub fn equal_errors()
    ensures failed { (a b : _) → IsTrue (⟦<Failed as PartialEq>⟧.eq a b) ↔ (a ≡ b) }
    ensures text { (a b : _) → IsTrue (⟦<TextError as PartialEq>⟧.eq a b) ↔ (a ≡ b) }
    ensures words { (a b : _) → IsTrue (⟦<WordsError as PartialEq>⟧.eq a b) ↔ (a ≡ b) }
    ensures hex { (a b : _) → IsTrue (⟦<HexError as PartialEq>⟧.eq a b) ↔ (a ≡ b) }
{}

/// The text of a message has at most 131,072 octets, and one read gives at most 4,096.
pub fn limits()
    ensures message { MESSAGE_TEXT_LIMIT ≡ 131072 }
    ensures read { READ_CHUNK ≡ 4096 }
{}
