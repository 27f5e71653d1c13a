//! Which types have an RDATA format of their own.

ghost use Rattle.std.specs.Prelude.{◌≡◌};
ghost use Rattle.dns_record.specs.FieldKinds.{row_of};
ghost use Rattle.dns_record.specs.FurtherFormats.{further_by, kinds_by, lowercased_by};
ghost use Rattle.dns_record.specs.ListedFormats.{IsFormat};

use crate::field_kind::{EXCHANGE, FieldKind, NAME, NAMES, rdata_format};
use crate::rtype::RType;

/// The types that have an RDATA format of their own.
#[derive(Clone, Copy, Debug, PartialEq, Eq)]
pub enum Formats {
    /// Those of this library.
    Usual,
    /// And those whose data have names in lowercase in canonical form (RFC 4034 section 6.2). Pointers in these names are followed where
    /// RFC 3597 section 4 has receivers do so; data that have more than 65,535 octets with their names in full are refused.
    Listed,
}

/// PX.
const MAPPING: &[FieldKind] = &[
    FieldKind::Fixed(2),
    FieldKind::CompressibleName,
    FieldKind::CompressibleName,
];

/// SIG.
const OLD_SIGNATURE: &[FieldKind] = &[
    FieldKind::Fixed(18),
    FieldKind::CompressibleName,
    FieldKind::Rest,
];

/// NXT.
const OLD_NEXT: &[FieldKind] = &[FieldKind::CompressibleName, FieldKind::Rest];

/// NAPTR.
const REWRITING: &[FieldKind] = &[
    FieldKind::Fixed(4),
    FieldKind::CharacterString,
    FieldKind::CharacterString,
    FieldKind::CharacterString,
    FieldKind::CompressibleName,
];

/// KX.
const KEY_EXCHANGE: &[FieldKind] = &[FieldKind::Fixed(2), FieldKind::UncompressedName];

/// The format of a further type.
fn further_format(rtype: RType) -> Option<&'static [FieldKind]>
    ensures { IsFormat (further_by Formats.Listed rtype.code.value) result }
{
    match rtype.code.get() {
        3 | 4 | 7 | 8 | 9 => Some(NAME),
        14 => Some(NAMES),
        18 | 21 => Some(EXCHANGE),
        24 => Some(OLD_SIGNATURE),
        26 => Some(MAPPING),
        30 => Some(OLD_NEXT),
        35 => Some(REWRITING),
        36 => Some(KEY_EXCHANGE),
        _ => None,
    }
}

impl Formats {
    /// The format of a type that is none of those of this library.
    fn further(self, rtype: RType) -> Option<&'static [FieldKind]>
        ensures { IsFormat (further_by self rtype.code.value) result }
    {
        match self {
            Formats::Usual => None,
            Formats::Listed => further_format(rtype),
        }
    }

    /// The kinds of the fields of data of the type, and whether names in them are in lowercase in canonical form.
    pub fn kinds(self, rtype: RType) -> (&'static [FieldKind], bool)
        ensures kinds { result.0.now ≡ row_of (kinds_by self rtype.code.value) }
        ensures lowercase { result.1 ≡ lowercased_by self rtype.code.value }
    {
        match self.further(rtype) {
            Some(kinds) => (kinds, true),
            None => (rdata_format(rtype), rtype.uses_lowercase_canonical_form()),
        }
    }
}
