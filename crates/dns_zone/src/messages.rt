//! The messages in a text, and what they hold of a zone.

ghost use Rattle.std.specs.Prelude.{◌≡◌, ◌≤◌, ◌<◌, ◌+◌, ◌^◌, [], ◌∷◌, ◌++◌, ◌||◌, Some, None, IfOk, IfErr, OnOk, filter, length, map, vec_len};
ghost use Rattle.dns_text.specs.Hexadecimal.{Spells, spelled};
ghost use Rattle.dns_command.specs.Outcomes.{RefusesFor};
ghost use Rattle.dns_text.specs.Spelled.{all_spelled};
ghost use Rattle.dns_message.specs.Canonical.{is_not_opt};
ghost use Rattle.dns_message.specs.Messages.{message_by};
ghost use Rattle.dns_message.specs.Order.{sort_key};
ghost use Rattle.dns_message.specs.Refusals.{first_refused};
ghost use Rattle.dns_message.specs.Several.{all_records_by};
ghost use Rattle.dns_record.specs.FurtherFormats.{data_by};
ghost use Rattle.dns_command.specs.Refusals.{first_refusal_by};
ghost use Rattle.dns_zone.specs.Texts.{lines_refusal, texts_in};
ghost use Rattle.dns_zone.specs.Zone.{belongs, belongs_form, has_soa, has_soa_form};

use crate::member::{belongs, has_soa};
use crate::refusal::ZoneRefusal;
use dns_command::{PrintError, Refusal};
use dns_message::{CanonicalForm, CanonicalForms, FormsReader};
use dns_name::RevNameBuf;
use dns_record::Formats;
use dns_text::{octets_of, trimmed};
use std::alloc::{AllocError, Global};

/// The octets of the message that a line spells.
fn message_in(alloc: Global, line: &[u8]) -> Result<Vec<u8>, PrintError<ZoneRefusal>>
    ensures spelled { IfOk result (λ octets. Spells line.now octets.items) }
    ensures refused { IfErr result (RefusesFor (lines_refusal (all_spelled (line.now ∷ [])))) }
{
    let octets = octets_of(alloc, line)?;
    Ok(octets)
}

/// The octets of the messages in a text, a line each; whitespace at the end of the text and of a line does not count.
pub(crate) fn messages_in(
    alloc: Global,
    text: &[u8],
) -> Result<Vec<Vec<u8>>, PrintError<ZoneRefusal>>
    ensures spelled { IfOk result (λ messages. all_spelled (texts_in text.now) ≡ Some (map (λ m. m.items) messages.items)) }
    ensures few { IfOk result (λ messages. vec_len messages ≤ length text.now + 1) }
    ensures refused { IfErr result (RefusesFor (lines_refusal (all_spelled (texts_in text.now)))) }
{
    let solid = trimmed(text);
    let mut messages = Vec::new(alloc);
    if solid.is_empty() {
        return Ok(messages);
    }
    for line in solid.split(|octet| *octet == b'\n') {
        messages.push(message_in(alloc, line)?)?;
    }
    Ok(messages)
}

/// The octets of the messages, borrowed.
pub(crate) fn slices_of(alloc: Global, messages: &[Vec<u8>]) -> Result<Vec<&[u8]>, AllocError>
    ensures { IfOk result (λ slices. map (λ m. m.now) slices.items ≡ map (λ m. m.items) messages.now) }
{
    let mut slices = Vec::with_capacity(alloc, messages.len())?;
    for message in messages {
        slices.push(message.as_slice())?;
    }
    Ok(slices)
}

/// What messages hold of a zone.
#[derive(Drop)]
pub(crate) struct ZoneRecords {
    /// The canonical forms of the records in the zone.
    pub(crate) forms: CanonicalForms,
    /// Whether one of all records is the SOA record of the apex.
    pub(crate) has_soa: bool,
}

/// Puts the forms that are in the zone of the apex after the members. `AllocError` is out of memory.
fn push_members(
    members: &mut CanonicalForms,
    forms: &[CanonicalForm<'_>],
    apex: &RevNameBuf,
) -> Result<(), AllocError>
    ensures { OnOk result (members.new ≡ members.old ++ filter (belongs_form apex.now) forms.now) }
{
    for form in forms {
        if belongs(form, apex) {
            members.push(form)?;
        }
    }
    Ok(())
}

impl ZoneRecords {
    /// Adds what the forms of one more message hold of the zone of the apex. `AllocError` is out of memory.
    fn add(
        &mut self,
        alloc: Global,
        forms: &CanonicalForms,
        apex: &RevNameBuf,
    ) -> Result<(), AllocError>
        ensures members { OnOk result (self.new.forms ≡ self.old.forms ++ filter (belongs_form apex.now) forms.now) }
        ensures soa { OnOk result (self.new.has_soa ≡ (self.old.has_soa || has_soa_form apex.now forms.now)) }
    {
        let views = forms.views(alloc)?;
        push_members(&mut self.forms, &views, apex)?;
        self.has_soa = self.has_soa || has_soa(&views, apex);
        Ok(())
    }
}

/// What the messages hold of the zone of the apex, by these formats of RDATA.
pub(crate) fn zone_records(
    alloc: Global,
    messages: &[&[u8]],
    apex: &RevNameBuf,
    formats: Formats,
) -> Result<ZoneRecords, PrintError<ZoneRefusal>>
    requires { length messages.now < 2 ^ 32 }
    ensures valid { IfOk result (λ _. first_refused 0 (map (message_by (data_by formats)) (map (λ m. m.now) messages.now)) ≡ None) }
    ensures members { IfOk result (λ found. found.forms ≡ map sort_key (filter (belongs apex.now) (filter is_not_opt (all_records_by (data_by formats) (map (λ m. m.now) messages.now))))) }
    ensures soa { IfOk result (λ found. found.has_soa ≡ has_soa apex.now (filter is_not_opt (all_records_by (data_by formats) (map (λ m. m.now) messages.now)))) }
    ensures refused { IfErr result (RefusesFor (first_refusal_by (data_by formats) (map (λ m. m.now) messages.now))) }
{
    let mut found = ZoneRecords {
        forms: CanonicalForms::new(alloc),
        has_soa: false,
    };
    let mut reader = FormsReader::new(alloc);
    for (number, message) in messages.iter().enumerate() {
        match reader.read_by(alloc, message, formats) {
            Ok(forms) => found.add(alloc, forms, apex)?,
            Err(error) => return Err(Refusal::of(number as u32, error)),
        }
    }
    Ok(found)
}
