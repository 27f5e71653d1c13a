//! Reading data whose type has no name that pointers may lead through.

ghost use Rattle.std.specs.Prelude.{◌≡◌, true, false};
ghost use Rattle.dns_rdata.specs.Plain.{is_uncompressed_type, is_general_type, is_signed_type, ReadsPlain};

use crate::record_data::RecordData;
use crate::unknown::UnknownRecordData;
use dns_edns::Opt;
use dns_nsec::{Nsec, Nsec3, Nsec3Param};
use dns_plain::{A, Aaaa, DName, HInfo, Srv, Txt};
use dns_record::RType;
use dns_sec::{CDNSKey, Cds, DNSKey, Ds, Rrsig, ZoneMD};
use dns_wire::{ParseBytes, ParseError};

/// A result that has data of one type, as one that has data of any type.
macro_rules! as_data {
    ($variant:ident, $result:expr) => {
        match $result {
            Ok(value) => Ok(RecordData::$variant(value)),
            Err(error) => Err(error),
        }
    };
}

pub(crate) use as_data;

/// Reads the data of such a type that all the octets spell. `ParseError` comes exactly if they spell none.
pub(crate) fn read_plain<'a, N>(
    bytes: &'a [u8],
    rtype: RType,
) -> Result<RecordData<'a, N>, ParseError>
    requires { is_uncompressed_type rtype.code.value ≡ true }
    ensures { ReadsPlain result rtype.code.value bytes.now }
{
    match rtype {
        RType::A => as_data!(A, A::parse_bytes(bytes)),
        RType::HINFO => as_data!(HInfo, HInfo::parse_bytes(bytes)),
        RType::TXT => as_data!(Txt, Txt::parse_bytes(bytes)),
        RType::SRV => as_data!(Srv, Srv::parse_bytes(bytes)),
        RType::AAAA => as_data!(Aaaa, Aaaa::parse_bytes(bytes)),
        RType::DNAME => as_data!(DName, DName::parse_bytes(bytes)),
        _ => read_signed(bytes, rtype),
    }
}

/// Reads the same of keys, of their digests, of what is signed with them, and of the types that are left.
fn read_signed<'a, N>(bytes: &'a [u8], rtype: RType) -> Result<RecordData<'a, N>, ParseError>
    requires plain { is_uncompressed_type rtype.code.value ≡ true }
    requires left { is_general_type rtype.code.value ≡ false }
    ensures { ReadsPlain result rtype.code.value bytes.now }
{
    match rtype {
        RType::DS => as_data!(Ds, Ds::parse_bytes(bytes)),
        RType::RRSIG => as_data!(Rrsig, Rrsig::parse_bytes(bytes)),
        RType::DNSKEY => as_data!(DNSKey, DNSKey::parse_bytes(bytes)),
        RType::CDS => as_data!(Cds, Cds::parse_bytes(bytes)),
        RType::CDNSKEY => as_data!(CDNSKey, CDNSKey::parse_bytes(bytes)),
        RType::ZONEMD => as_data!(ZoneMD, ZoneMD::parse_bytes(bytes)),
        _ => read_denial(bytes, rtype),
    }
}

/// Reads the same of what denies that names exist, of options, and of types that have no RDATA format.
fn read_denial<'a, N>(bytes: &'a [u8], rtype: RType) -> Result<RecordData<'a, N>, ParseError>
    requires plain { is_uncompressed_type rtype.code.value ≡ true }
    requires left { is_general_type rtype.code.value ≡ false }
    requires unsigned { is_signed_type rtype.code.value ≡ false }
    ensures { ReadsPlain result rtype.code.value bytes.now }
{
    match rtype {
        RType::NSEC => as_data!(Nsec, Nsec::parse_bytes(bytes)),
        RType::NSEC3 => as_data!(Nsec3, Nsec3::parse_bytes(bytes)),
        RType::NSEC3PARAM => as_data!(Nsec3Param, Nsec3Param::parse_bytes(bytes)),
        RType::OPT => as_data!(Opt, Opt::parse_bytes(bytes)),
        _ => Ok(RecordData::Unknown(rtype, UnknownRecordData { octets: bytes })),
    }
}
