//! Fields of record data without pointers.

ghost use Rattle.std.specs.Prelude.{◌≡◌, ◌<◌, ◌≤◌, [], drop, length, map, Some, None, true, false, MatchOption};
ghost use Rattle.dns_wire.specs.Octets.{Labels, Octets};
ghost use Rattle.dns_wire.specs.Names.{plain_name};
ghost use Rattle.dns_wire.specs.Reading.{all_of};
ghost use Rattle.dns_record.specs.CharacterStrings.{character_string};
ghost use Rattle.dns_record.specs.Kinds.{field_of, fields_of};
ghost use Rattle.dns_record.specs.FieldKinds.{kind_of};
ghost use Rattle.dns_message.specs.PlainFields.{AfterField, AreFields};

use dns_name::Name;
use dns_record::{CharStr, FieldKind, are_character_strings, are_options, are_windows};
use dns_wire::SplitBytes;

/// The octets after the first that many.
fn after_octets(bytes: &[u8], size: usize) -> Option<&[u8]>
    ensures { MatchOption result (length bytes.now < size) (λ rest. (size ≤ length bytes.now) × (rest.now ≡ drop size bytes.now)) }
{
    if bytes.len() < size {
        return None;
    }
    Some(&bytes[size..])
}

/// No octets, if they are such.
fn none_if(are_such: bool) -> Option<&'static [u8]>
    ensures { MatchOption result (are_such ≡ false) (λ rest. (are_such ≡ true) × (rest.now ≡ [])) }
{
    if are_such { Some(&[]) } else { None }
}

/// The octets after the name at the start.
fn after_name(bytes: &[u8]) -> Option<&[u8]>
    ensures { MatchOption result (plain_name bytes.now ≡ None) (λ rest. (labels : Labels) × (plain_name bytes.now ≡ Some (labels, rest.now))) }
{
    match Name::split_bytes(bytes) {
        Ok((_name, rest)) => Some(rest),
        Err(_) => None,
    }
}

/// The octets after those that come after an octet with their number.
fn after_string(bytes: &[u8]) -> Option<&[u8]>
    ensures { MatchOption result (character_string bytes.now ≡ None) (λ rest. (octets : Octets) × (character_string bytes.now ≡ Some (octets, rest.now))) }
{
    match CharStr::split_bytes(bytes) {
        Ok((_string, rest)) => Some(rest),
        Err(_) => None,
    }
}

/// The octets after the field at the start; `None` exactly if no such field is there.
#[inline(always)]
pub(crate) fn after_field(kind: FieldKind, bytes: &[u8]) -> Option<&[u8]>
    ensures { AfterField (field_of plain_name (kind_of kind) bytes.now) result }
{
    match kind {
        FieldKind::Fixed(size) => after_octets(bytes, size),
        FieldKind::CompressibleName => after_name(bytes),
        FieldKind::UncompressedName => after_name(bytes),
        FieldKind::CharacterString => after_string(bytes),
        FieldKind::CountedOctets => after_string(bytes),
        FieldKind::CharacterStrings => none_if(are_character_strings(bytes)),
        FieldKind::Options => none_if(are_options(bytes)),
        FieldKind::TypeBitMaps => none_if(are_windows(bytes)),
        FieldKind::NonEmptyTypeBitMaps => {
            if bytes.is_empty() {
                None
            } else {
                none_if(are_windows(bytes))
            }
        }
        FieldKind::Rest => Some(&[]),
    }
}

/// Whether the octets are fields of these kinds, one after another, and nothing else.
pub(crate) fn are_fields(kinds: &[FieldKind], bytes: &[u8]) -> bool
    ensures { AreFields (all_of (fields_of plain_name (map kind_of kinds.now) bytes.now)) result }
{
    let mut rest = bytes;
    for kind in kinds {
        let Some(trailing) = after_field(*kind, rest) else {
            return false;
        };
        rest = trailing;
    }
    rest.is_empty()
}
