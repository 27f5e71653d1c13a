//! Reading the records of a message as their canonical forms.

ghost use Rattle.std.specs.Prelude.{◌≡◌, ◌≤◌, List, IfOk, IfErr, IfSome, length, take};
ghost use Rattle.dns_wire.specs.Octets.{Labels};
ghost use Rattle.dns_wire.specs.Pointers.{name_at};
ghost use Rattle.dns_wire.specs.Reading.{AreOctets};
ghost use Rattle.dns_record.specs.Records.{record_in};
ghost use Rattle.dns_record.specs.Seen.{parts_seen};
ghost use Rattle.dns_message.specs.FormsRead.{AddsData, AddsForm, AddsRecord, forms_if, forms_of, forms_up_to};
ghost use Rattle.dns_record.specs.FurtherFormats.{data_by};
ghost use Rattle.dns_message.specs.Messages.{RecordValue, Valid, ValidBy, item_by};
ghost use Rattle.dns_message.specs.Owners.{HasOwner, WasRead};
ghost use Rattle.dns_message.specs.Refusals.{RefusedByOrMemory, RefusedOrMemory};
ghost use Rattle.dns_message.specs.UnparsedRecords.{DataAreAt, data_start};

use crate::canon_error::CanonError;
use crate::canonical_forms::{CanonicalForms, numbers};
use crate::known_names::KnownNames;
use crate::last_owner::LastOwner;
use crate::lowercase_fields::push_fields;
use crate::name_reader::NameReader;
use crate::parser::MessageParser;
use crate::plain_fields::are_fields;
use dns_name::Name;
use dns_record::{Formats, MAX_DATA_SIZE, RType, UnparsedParts};
use dns_wire::SplitMessageBytes;
use std::alloc::{AllocError, Global};
use std::mem;

/// Room for the record that is read: the owner that was read last, a name, and data in canonical form. It is kept from message to message, and so
/// is the memory of names that pointers led to.
#[derive(Drop)]
struct RecordRoom {
    owner: LastOwner,
    known: KnownNames,
    name: [u8; Name::MAX_SIZE],
    rdata: Vec<u8>,
}

impl RecordRoom {
    /// Room in which no owner was read.
    fn new(alloc: Global) -> RecordRoom {
        RecordRoom {
            owner: LastOwner::none(),
            known: KnownNames::none(alloc),
            name: [0; Name::MAX_SIZE],
            rdata: Vec::new(alloc),
        }
    }
}

/// Puts the form of a record whose data end at a place of the message after the forms, and says whether the data are such of its type. Data
/// without names in lowercase are copied as they are. Nothing is put for a record of type OPT. `AllocError` is out of memory.
fn push_data(
    alloc: Global,
    forms: &mut CanonicalForms,
    names: &mut NameReader<'_>,
    room: &mut RecordRoom,
    formats: Formats,
    parts: &UnparsedParts<'_>,
    end: usize,
) -> Result<bool, AllocError>
    requires within { end ≤ length names.old }
    requires placed { DataAreAt names.old parts.now.rdata.now end }
    requires octets { AreOctets names.old }
    requires owner { (labels : Labels) × HasOwner room.old.owner labels }
    ensures adds { IfOk result (λ is_read. (labels : Labels) → HasOwner room.old.owner labels
        → AddsData forms.old labels (parts_seen parts.now) (data_by formats parts.now.rtype.code.value (take end names.old) (data_start end parts.now.rdata.now)) (forms_if forms.new is_read)) }
    ensures names { names.new ≡ names.old }
    ensures owner { room.new.owner ≡ room.old.owner }
{
    let octets = parts.rdata;
    let (rtype, rclass, ttl) = (parts.rtype, parts.rclass, parts.ttl);
    let (kinds, lowercase) = formats.kinds(rtype);
    let RecordRoom {
        owner,
        name,
        rdata,
        ..
    } = room;
    if !lowercase {
        if !are_fields(kinds, octets) {
            return Ok(false);
        }
        if rtype == RType::OPT {
            return Ok(true);
        }
        forms.push_canonical(owner.owner(), rtype, rclass, ttl, parts.octets(), &[])?;
        return Ok(true);
    }
    rdata.clear();
    if !push_fields(alloc, names, name, rdata, kinds, end - octets.len(), end)? {
        return Ok(false);
    }
    if rdata.len() > MAX_DATA_SIZE {
        return Ok(false);
    }
    let first = numbers(rtype, rclass, ttl, rdata.len() as u16);
    forms.push_canonical(owner.owner(), rtype, rclass, ttl, &first, rdata)?;
    Ok(true)
}

/// Reads the record at a place, and puts its form after the forms, unless it is of type OPT. It gives the place where the record ends; `None`
/// exactly if no record is there. `AllocError` is out of memory.
fn push_record(
    alloc: Global,
    forms: &mut CanonicalForms,
    names: &mut NameReader<'_>,
    room: &mut RecordRoom,
    formats: Formats,
    start: usize,
) -> Result<Option<usize>, AllocError>
    requires { WasRead names.old room.old.owner }
    ensures adds { IfOk result (λ end. AddsRecord forms.old (record_in name_at (data_by formats) names.old start) (forms_up_to forms.new end)) }
    ensures owner { IfOk result (λ end. IfSome end (λ _. WasRead names.old room.new.owner)) }
    ensures names { names.new ≡ names.old }
{
    let Some(at) = room.owner.read(alloc, names, start)? else {
        return Ok(None);
    };
    let Ok((parts, end)) = UnparsedParts::split_message_bytes(names.contents(), at) else {
        return Ok(None);
    };
    let is_read = push_data(alloc, forms, names, room, formats, &parts, end)?;
    if is_read { Ok(Some(end)) } else { Ok(None) }
}

/// Reads the item of a section at a place, and puts its form after the forms, unless it is a question or of type OPT. It gives the place where
/// the item ends; `None` exactly if none is there. `AllocError` is out of memory.
fn push_item(
    alloc: Global,
    forms: &mut CanonicalForms,
    names: &mut NameReader<'_>,
    room: &mut RecordRoom,
    formats: Formats,
    section: u8,
    start: usize,
) -> Result<Option<usize>, AllocError>
    requires { WasRead names.old room.old.owner }
    ensures adds { IfOk result (λ end. AddsForm forms.old (item_by (data_by formats) section names.old start) (forms_up_to forms.new end)) }
    ensures owner { IfOk result (λ end. IfSome end (λ _. WasRead names.old room.new.owner)) }
    ensures names { names.new ≡ names.old }
{
    if section != 0 {
        return push_record(alloc, forms, names, room, formats, start);
    }
    names.end_of_question(alloc, start, &mut room.name)
}

/// Reads a whole message, and gives the canonical forms of its records except those of type OPT, in the memory of earlier forms.
fn read_into(
    alloc: Global,
    message: &[u8],
    earlier: CanonicalForms,
    room: &mut RecordRoom,
    formats: Formats,
) -> Result<CanonicalForms, CanonError>
    ensures read { IfOk result (λ forms. (rs : List RecordValue) × ValidBy (data_by formats) message.now rs × (forms ≡ forms_of rs)) }
    ensures refused { IfErr result (RefusedByOrMemory (data_by formats) message.now) }
{
    let Ok(mut parser) = MessageParser::new(message) else {
        return Err(CanonError::Short);
    };
    let contents = parser.message().contents();
    let mut forms = earlier.cleared(parser.message().most_records(), contents.len())?;
    let known = mem::replace(&mut room.known, KnownNames::none(alloc));
    let mut names = NameReader::new(contents, known);
    room.owner.forget();
    while let Some(position) = parser.coming() {
        let start = parser.offset();
        let section = position.section;
        let pushed = push_item(alloc, &mut forms, &mut names, room, formats, section, start)?;
        let Some(end) = pushed else {
            return Err(CanonError::Item {
                section,
                index: position.index,
            });
        };
        parser.pass(position, end);
    }
    room.known = names.into_known();
    Ok(forms)
}

/// Reads a whole message, and gives the canonical forms of its records except those of type OPT, in the message's order. Memory for them
/// is taken once for as many as the header counts and the contents can hold, and again as names in full need it; at the first
/// chain of pointers it is taken for the final targets too, and from the ninth name on 536 octets are taken for each place to which a name
/// leads.
pub fn read_forms(alloc: Global, message: &[u8]) -> Result<CanonicalForms, CanonError>
    ensures read { IfOk result (λ forms. (rs : List RecordValue) × Valid message.now rs × (forms ≡ forms_of rs)) }
    ensures refused { IfErr result (RefusedOrMemory message.now) }
{
    read_into(
        alloc,
        message,
        CanonicalForms::new(alloc),
        &mut RecordRoom::new(alloc),
        Formats::Usual,
    )
}

/// Reads a whole message as `read_forms`, by these formats.
pub fn read_forms_by(
    alloc: Global,
    message: &[u8],
    formats: Formats,
) -> Result<CanonicalForms, CanonError>
    ensures read { IfOk result (λ forms. (rs : List RecordValue) × ValidBy (data_by formats) message.now rs × (forms ≡ forms_of rs)) }
    ensures refused { IfErr result (RefusedByOrMemory (data_by formats) message.now) }
{
    read_into(
        alloc,
        message,
        CanonicalForms::new(alloc),
        &mut RecordRoom::new(alloc),
        formats,
    )
}

/// Reads messages one after another in the same memory.
#[derive(Drop)]
pub struct FormsReader {
    forms: CanonicalForms,
    room: RecordRoom,
}

impl FormsReader {
    /// A reader that has read no message. No memory is taken.
    pub fn new(alloc: Global) -> FormsReader {
        FormsReader {
            forms: CanonicalForms::new(alloc),
            room: RecordRoom::new(alloc),
        }
    }

    /// Reads a whole message as `read_forms`, in the memory that the message before took; after a refusal that is given up.
    pub fn read(&mut self, alloc: Global, message: &[u8]) -> Result<&CanonicalForms, CanonError>
        ensures read { IfOk result (λ forms. (rs : List RecordValue) × Valid message.now rs × (forms.now ≡ forms_of rs)) }
        ensures refused { IfErr result (RefusedOrMemory message.now) }
    {
        self.read_by(alloc, message, Formats::Usual)
    }

    /// Reads a whole message as `read_forms_by`, in the memory that the message before took; after a refusal that is given up.
    pub fn read_by(
        &mut self,
        alloc: Global,
        message: &[u8],
        formats: Formats,
    ) -> Result<&CanonicalForms, CanonError>
        ensures read { IfOk result (λ forms. (rs : List RecordValue) × ValidBy (data_by formats) message.now rs × (forms.now ≡ forms_of rs)) }
        ensures refused { IfErr result (RefusedByOrMemory (data_by formats) message.now) }
    {
        let earlier = mem::replace(&mut self.forms, CanonicalForms::new(alloc));
        self.forms = read_into(alloc, message, earlier, &mut self.room, formats)?;
        Ok(&self.forms)
    }
}
