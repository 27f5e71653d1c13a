//! Kinds of fields of record data, and the RDATA format of each type.

ghost use Rattle.std.specs.Prelude.{◌≡◌};
ghost use Rattle.dns_record.specs.Formats.{format_under, has_rdata_format, rdata_format, rdata_formats};
ghost use Rattle.dns_record.specs.FieldKinds.{row_of};
ghost use Rattle.dns_record.specs.ListedFormats.{IsFormat};

use crate::rtype::RType;

/// A kind of field.
#[derive(Clone, Copy, Debug, PartialEq, Eq)]
pub enum FieldKind {
    /// That many octets: fields of fixed size, one after another.
    Fixed(usize),
    /// A name, which in a message may have pointers.
    CompressibleName,
    /// A name without pointers.
    UncompressedName,
    /// A character string: octets after an octet with their number, compared without regard to ASCII case.
    CharacterString,
    /// Octets after an octet with their number, compared as they are.
    CountedOctets,
    /// Character strings, at least one, up to the end.
    CharacterStrings,
    /// Options, perhaps none, up to the end.
    Options,
    /// A bitmap of types, up to the end.
    TypeBitMaps,
    /// The same with one window at least.
    NonEmptyTypeBitMaps,
    /// All that remains.
    Rest,
}

/// A.
const ADDRESS: &[FieldKind] = &[FieldKind::Fixed(4)];

/// NS, CNAME and PTR.
pub(crate) const NAME: &[FieldKind] = &[FieldKind::CompressibleName];

/// SOA.
const AUTHORITY: &[FieldKind] = &[
    FieldKind::CompressibleName,
    FieldKind::CompressibleName,
    FieldKind::Fixed(20),
];

/// HINFO.
const HOST: &[FieldKind] = &[FieldKind::CharacterString, FieldKind::CharacterString];

/// MX.
pub(crate) const EXCHANGE: &[FieldKind] = &[FieldKind::Fixed(2), FieldKind::CompressibleName];

/// TXT.
const TEXTS: &[FieldKind] = &[FieldKind::CharacterStrings];

/// RP.
pub(crate) const NAMES: &[FieldKind] = &[FieldKind::CompressibleName, FieldKind::CompressibleName];

/// AAAA.
const LONG_ADDRESS: &[FieldKind] = &[FieldKind::Fixed(16)];

/// SRV.
const SERVICE: &[FieldKind] = &[FieldKind::Fixed(6), FieldKind::UncompressedName];

/// DNAME.
const OTHER_NAME: &[FieldKind] = &[FieldKind::UncompressedName];

/// OPT.
const OPTIONS: &[FieldKind] = &[FieldKind::Options];

/// DS, CDS, DNSKEY and CDNSKEY.
const KEY: &[FieldKind] = &[FieldKind::Fixed(4), FieldKind::Rest];

/// RRSIG.
const SIGNATURE: &[FieldKind] = &[
    FieldKind::Fixed(18),
    FieldKind::UncompressedName,
    FieldKind::Rest,
];

/// NSEC.
const NEXT: &[FieldKind] = &[FieldKind::UncompressedName, FieldKind::NonEmptyTypeBitMaps];

/// NSEC3.
const NEXT_HASH: &[FieldKind] = &[
    FieldKind::Fixed(4),
    FieldKind::CountedOctets,
    FieldKind::CountedOctets,
    FieldKind::TypeBitMaps,
];

/// NSEC3PARAM.
const HASH_PARAMETERS: &[FieldKind] = &[FieldKind::Fixed(4), FieldKind::CountedOctets];

/// ZONEMD.
const ZONE_DIGEST: &[FieldKind] = &[FieldKind::Fixed(6), FieldKind::Rest];

/// Any other type.
const UNKNOWN: &[FieldKind] = &[FieldKind::Rest];

/// The format of a type that has one of its own.
fn own_format(rtype: RType) -> Option<&'static [FieldKind]>
    ensures { IsFormat (format_under rdata_formats rtype.code.value) result }
{
    match rtype {
        RType::A => Some(ADDRESS),
        RType::NS | RType::CNAME | RType::PTR => Some(NAME),
        RType::SOA => Some(AUTHORITY),
        RType::HINFO => Some(HOST),
        RType::MX => Some(EXCHANGE),
        RType::TXT => Some(TEXTS),
        RType::RP => Some(NAMES),
        RType::AAAA => Some(LONG_ADDRESS),
        RType::SRV => Some(SERVICE),
        RType::DNAME => Some(OTHER_NAME),
        RType::OPT => Some(OPTIONS),
        RType::DS | RType::CDS | RType::DNSKEY | RType::CDNSKEY => Some(KEY),
        RType::RRSIG => Some(SIGNATURE),
        RType::NSEC => Some(NEXT),
        RType::NSEC3 => Some(NEXT_HASH),
        RType::NSEC3PARAM => Some(HASH_PARAMETERS),
        RType::ZONEMD => Some(ZONE_DIGEST),
        _ => None,
    }
}

/// Whether the type has its own RDATA format.
pub fn has_rdata_format(rtype: RType) -> bool
    ensures { result ≡ has_rdata_format rtype.code.value }
{
    own_format(rtype).is_some()
}

/// The kinds of the fields of data of the type, those of fixed size joined.
pub fn rdata_format(rtype: RType) -> &'static [FieldKind]
    ensures { result.now ≡ row_of (rdata_format rtype.code.value) }
{
    match own_format(rtype) {
        Some(kinds) => kinds,
        None => UNKNOWN,
    }
}
