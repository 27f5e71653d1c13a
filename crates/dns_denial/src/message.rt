//! What is printed for the records of a message.

ghost use Rattle.std.specs.Prelude.{◌≡◌, ◌<◌, ◌^◌, ◌++◌, Some, None, true, IfOk, IfErr, OnOk, length};
ghost use Rattle.dns_text.specs.Hexadecimal.{line};
ghost use Rattle.dns_wire.specs.Names.{name_labels};
ghost use Rattle.dns_command.specs.Outcomes.{RefusesFor};
ghost use Rattle.dns_denial.specs.Coverage.{coverage_line, coverage_text, coverage_word};
ghost use Rattle.dns_denial.specs.KeyTags.{key_line, key_tags_text, tag_line};
ghost use Rattle.dns_denial.specs.Signed.{signature_refusal, signed_octets, signed_refusal, signed_text};
ghost use Rattle.dns_denial.specs.Texts.{PrintsDenial, denial_reads, denial_refusal, members_refusal, members_text};

use crate::coverage::{Coverage, nsec_coverage, nsec3_coverage};
use crate::refusal::{DenialReason, DenialRefusal};
use crate::signed::{Signature, signature_at, signed_octets};
use crate::tag::{is_rsa_md5, key_tag};
use crate::words::DenialCommand;
use dns_command::{OneMessage, PrintError, Refusal, TextReader};
use dns_message::CanonicalForm;
use dns_name::Name;
use dns_record::RType;
use dns_text::hex_line;
use std::alloc::{AllocError, Global};

/// The line of a key's data: its tag, or `-` for RSA/MD5.
fn tag_line(alloc: Global, octets: &[u8]) -> Result<Vec<u8>, AllocError>
    requires { length octets.now < 2 ^ 16 }
    ensures { IfOk result (λ line. line.items ≡ tag_line octets.now) }
{
    if is_rsa_md5(octets) {
        return Vec::from_slice(alloc, b"-\n");
    }
    let line = format!(in alloc; "{}\n", key_tag(octets))?;
    Ok(line.into_bytes())
}

/// Appends the line of a record, if it is a key.
fn push_key_line(
    alloc: Global,
    found: &CanonicalForm<'_>,
    text: &mut Vec<u8>,
) -> Result<(), AllocError>
    ensures { OnOk result (text.new.items ≡ text.old.items ++ key_line found.now) }
{
    if found.rtype() != RType::DNSKEY {
        return Ok(());
    }
    let line = tag_line(alloc, found.data())?;
    text.extend_from_slice(&line)
}

/// The lines of the keys among records.
fn key_tags_text(alloc: Global, forms: &[CanonicalForm<'_>]) -> Result<Vec<u8>, AllocError>
    ensures { IfOk result (λ text. text.items ≡ key_tags_text forms.now) }
{
    let mut text = Vec::new(alloc);
    for found in forms {
        push_key_line(alloc, found, &mut text)?;
    }
    Ok(text)
}

/// Appends the line of what a record of a type says of a name.
fn push_said(rtype: &[u8], coverage: Coverage, text: &mut Vec<u8>) -> Result<(), AllocError>
    ensures { OnOk result (text.new.items ≡ text.old.items ++ (rtype.now ++ coverage_word coverage)) }
{
    text.extend_from_slice(rtype)?;
    text.extend_from_slice(coverage.word())
}

/// Appends the line of a record, if it is of type NSEC or NSEC3.
fn push_coverage_line(
    found: &CanonicalForm<'_>,
    name: Name<'_>,
    text: &mut Vec<u8>,
) -> Result<(), AllocError>
    ensures { OnOk result (text.new.items ≡ text.old.items ++ coverage_line (name_labels name.entry.slice.now) found.now) }
{
    let rtype = found.rtype();
    if rtype == RType::NSEC {
        push_said(b"nsec ", nsec_coverage(found, name), text)
    } else if rtype == RType::NSEC3 {
        push_said(b"nsec3 ", nsec3_coverage(found, name), text)
    } else {
        Ok(())
    }
}

/// The lines of the NSEC and NSEC3 records among records.
fn coverage_text(
    alloc: Global,
    forms: &[CanonicalForm<'_>],
    name: Name<'_>,
) -> Result<Vec<u8>, AllocError>
    ensures { IfOk result (λ text. text.items ≡ coverage_text (name_labels name.entry.slice.now) forms.now) }
{
    let mut text = Vec::new(alloc);
    for found in forms {
        push_coverage_line(found, name, &mut text)?;
    }
    Ok(text)
}

/// The line of the octets that a signature is over.
fn signed_line(
    alloc: Global,
    forms: &[CanonicalForm<'_>],
    signature: &Signature<'_, '_>,
) -> Result<Vec<u8>, PrintError<DenialRefusal>>
    ensures printed { IfOk result (λ text. text.items ≡ line (signed_octets forms.now signature.now)) }
    ensures accepted { IfOk result (λ _. signature_refusal (Some signature.now) ≡ None) }
    ensures refused { IfErr result (RefusesFor (signature_refusal (Some signature.now))) }
{
    if signature.has_too_many_labels() {
        return Err(PrintError::Refused(Refusal::Own(DenialReason::TooManyLabels)));
    }
    let octets = signed_octets(alloc, forms, signature)?;
    let line = hex_line(alloc, &octets)?;
    Ok(line)
}

/// The line of the octets that the signature of a number is over.
fn signed_text(
    alloc: Global,
    forms: &[CanonicalForm<'_>],
    number: u16,
) -> Result<Vec<u8>, PrintError<DenialRefusal>>
    ensures printed { IfOk result (λ text. text.items ≡ signed_text number forms.now) }
    ensures accepted { IfOk result (λ _. signed_refusal number forms.now ≡ None) }
    ensures refused { IfErr result (RefusesFor (signed_refusal number forms.now)) }
{
    match signature_at(forms, number) {
        Some(signature) => signed_line(alloc, forms, &signature),
        None => Err(PrintError::Refused(Refusal::Own(DenialReason::NoSignature))),
    }
}

/// What a command prints of records; `hash` prints nothing of them.
fn text_of(
    alloc: Global,
    command: &DenialCommand,
    forms: &[CanonicalForm<'_>],
) -> Result<Vec<u8>, PrintError<DenialRefusal>>
    ensures printed { IfOk result (λ text. text.items ≡ members_text command.now forms.now) }
    ensures accepted { IfOk result (λ _. members_refusal command.now forms.now ≡ None) }
    ensures refused { IfErr result (RefusesFor (members_refusal command.now forms.now)) }
{
    match command {
        DenialCommand::Hash { .. } => Ok(Vec::new(alloc)),
        DenialCommand::Covers { name } => Ok(coverage_text(alloc, forms, name.as_name())?),
        DenialCommand::Signed { number } => signed_text(alloc, forms, *number),
        DenialCommand::KeyTags => Ok(key_tags_text(alloc, forms)?),
    }
}

/// What a command prints of the records in the message that a text spells, in canonical order and alike ones once.
pub(crate) fn print_message(
    alloc: Global,
    command: &DenialCommand,
    text: &[u8],
) -> Result<Vec<u8>, PrintError<DenialRefusal>>
    requires { denial_reads command.now ≡ true }
    ensures printed { IfOk result (λ printed. PrintsDenial command.now text.now printed.items) }
    ensures accepted { IfOk result (λ _. denial_refusal command.now text.now ≡ None) }
    ensures refused { IfErr result (RefusesFor (denial_refusal command.now text.now)) }
{
    let mut reader = TextReader::new(alloc);
    let forms = reader.read_forms(alloc, text, OneMessage)?;
    let order = forms.collapsed(alloc)?;
    text_of(alloc, command, order.forms())
}
