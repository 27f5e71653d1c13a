//! EDNS records in the form of records, and back.

ghost use Rattle.std.specs.Prelude.{◌≡◌, [], List};
ghost use Rattle.dns_wire.specs.Reading.{Gives};
ghost use Rattle.dns_edns.specs.Flags.{flag_bits};
ghost use Rattle.dns_rdata.specs.Edns.{edns_seen};
ghost use Rattle.dns_rdata.specs.EdnsForms.{IsFormOf, octets_of_options, edns_fields, edns_of_parts, edns_in};

use crate::edns_record::EdnsRecord;
use crate::record_data::RecordData;
use dns_edns::{EdnsFlags, Opt};
use dns_name::{Name, NameBuf, RevName, RevNameBuf};
use dns_num::SizePrefixed;
use dns_record::{RClass, RType, Record, TTL};
use dns_wire::{ParseBytes, ParseError};

/// The record with this owner: the payload is its class, and the other fields are its time to live.
fn form_of<'a, O, N>(root: O, edns: EdnsRecord<Opt<'a>>) -> Record<O, RecordData<'a, N>>
    ensures { IsFormOf root edns.entry result }
{
    let ttl = u32::from(edns.ext_rcode) * 0x100_0000
        + u32::from(edns.version) * 0x1_0000
        + u32::from(edns.flags.bits());
    let rclass = RClass {
        code: edns.max_udp_payload,
    };
    let rdata = RecordData::Opt(edns.content.into_data());
    Record::new(root, RType::OPT, rclass, TTL::from(ttl), rdata)
}

impl<'a, N> From<EdnsRecord<Opt<'a>>> for Record<NameBuf, RecordData<'a, N>> {
    ghost from_gives = { λ edns form. IsFormOf [] edns form };

    fn from(edns: EdnsRecord<Opt<'a>>) -> Record<NameBuf, RecordData<'a, N>> {
        form_of(NameBuf::copy_from(Name::root()), edns)
    }
}

impl<'a, N> From<EdnsRecord<Opt<'a>>> for Record<RevNameBuf, RecordData<'a, N>> {
    ghost from_gives = { λ edns form. IsFormOf [] edns form };

    fn from(edns: EdnsRecord<Opt<'a>>) -> Record<RevNameBuf, RecordData<'a, N>> {
        form_of(RevNameBuf::copy_from(RevName::root()), edns)
    }
}

/// The options that the data have. `ParseError` comes exactly if they are neither OPT data nor unknown data with the
/// number of OPT that are options of at most 65,535 octets in all.
fn options_of<'a, N: Drop>(rdata: RecordData<'a, N>) -> Result<Opt<'a>, ParseError>
    ensures { Gives (λ options. options.slice.now) result (octets_of_options rdata.entry) }
{
    match rdata {
        RecordData::Opt(options) => Ok(options),
        RecordData::Unknown(RType::OPT, unknown) => Opt::parse_bytes(unknown.octets),
        _ => Err(ParseError),
    }
}

/// The flags that these bits are.
fn flags_of(bits: u16) -> EdnsFlags
    ensures { flag_bits result ≡ bits }
{
    EdnsFlags::parse_bytes(&bits.to_be_bytes()).unwrap()
}

/// The EDNS record with these fields.
fn edns_of<'a>(rclass: RClass, ttl: TTL, options: Opt<'a>) -> EdnsRecord<Opt<'a>>
    ensures { edns_seen (λ o. o.slice.now) result ≡ edns_fields rclass.code.value ttl.value.value options.entry.slice.now }
{
    let fields = ttl.as_secs();
    EdnsRecord {
        max_udp_payload: rclass.code,
        ext_rcode: (fields / 0x100_0000) as u8,
        version: (fields / 0x1_0000 % 0x100) as u8,
        flags: flags_of((fields % 0x1_0000) as u16),
        content: SizePrefixed::new(options),
    }
}

/// The EDNS record that a record with these parts is. `ParseError` comes exactly if its owner is not the root, its type is
/// not OPT, or its data have no options.
fn edns_of_parts<'a, N: Drop>(
    is_root: bool,
    rtype: RType,
    rclass: RClass,
    ttl: TTL,
    rdata: RecordData<'a, N>,
) -> Result<EdnsRecord<Opt<'a>>, ParseError>
    ensures { Gives (edns_seen (λ options. options.slice.now)) result (edns_of_parts is_root rtype.code.value rclass.code.value ttl.value.value rdata.entry) }
{
    if !is_root || rtype != RType::OPT {
        return Err(ParseError);
    }
    let options = options_of(rdata)?;
    Ok(edns_of(rclass, ttl, options))
}

/// `ParseError` comes exactly if the owner is not the root, the type is not OPT, or the data are neither OPT data nor unknown
/// data with the number of OPT that are options of at most 65,535 octets in all.
impl<'a, N: Drop> TryFrom<Record<NameBuf, RecordData<'a, N>>> for EdnsRecord<Opt<'a>> {
    type Error = ParseError;

    ghost try_from_gives = { λ form tried. Gives (edns_seen (λ options. options.slice.now)) tried (edns_in form) };

    fn try_from(
        form: Record<NameBuf, RecordData<'a, N>>,
    ) -> Result<EdnsRecord<Opt<'a>>, ParseError> {
        let is_root = form.rname.as_name().is_root();
        edns_of_parts(is_root, form.rtype, form.rclass, form.ttl, form.rdata)
    }
}

/// `ParseError` comes exactly if the owner is not the root, the type is not OPT, or the data are neither OPT data nor unknown
/// data with the number of OPT that are options of at most 65,535 octets in all.
impl<'a, N: Drop> TryFrom<Record<RevNameBuf, RecordData<'a, N>>> for EdnsRecord<Opt<'a>> {
    type Error = ParseError;

    ghost try_from_gives = { λ form tried. Gives (edns_seen (λ options. options.slice.now)) tried (edns_in form) };

    fn try_from(
        form: Record<RevNameBuf, RecordData<'a, N>>,
    ) -> Result<EdnsRecord<Opt<'a>>, ParseError> {
        let is_root = form.rname.as_revname().is_root();
        edns_of_parts(is_root, form.rtype, form.rclass, form.ttl, form.rdata)
    }
}
