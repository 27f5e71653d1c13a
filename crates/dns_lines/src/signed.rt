//! The signatures of a message.

ghost use Rattle.std.specs.Prelude.{◌≡◌, ◌≤◌, ◌++◌, None, IfOk, IfErr, OnOk, OnErr, length};
ghost use Rattle.dns_command.specs.Outcomes.{RefusesFor};
ghost use Rattle.dns_denial.specs.Signed.{labels_field};
ghost use Rattle.dns_lines.specs.Answers.{AddsPrinted, listed_refusal};
ghost use Rattle.dns_lines.specs.Signatures.{number_field, octets_field, signature_answer, signature_line, signature_lines, signature_numbers, signature_part};

use crate::answer::push_marked;
use crate::command::LineCommand;
use dns_command::{Notice, OneMessage, PrintError, Reason, TextReader};
use dns_denial::{DenialReason, Signature, signed_octets};
use dns_message::CanonicalForm;
use dns_normal::NormalRefusal;
use dns_record::Formats;
use dns_text::{push_hex_field, push_hex_line};
use std::alloc::{AllocError, Global};

/// Adds octets in hexadecimal digits, or `-` if there are none, and a space to a text.
fn push_octets(octets: &[u8], text: &mut Vec<u8>) -> Result<(), AllocError>
    ensures { OnOk result (text.new.items ≡ text.old.items ++ octets_field octets.now) }
{
    if octets.is_empty() {
        return text.extend_from_slice(b"- ");
    }
    push_hex_field(octets, text)
}

/// Adds a number in decimal digits, and a space to a text.
fn push_number(alloc: Global, number: u16, text: &mut Vec<u8>) -> Result<(), AllocError>
    ensures { OnOk result (text.new.items ≡ text.old.items ++ number_field number) }
{
    let field = format!(in alloc; "{} ", number)?;
    text.extend_from_slice(field.as_bytes())
}

/// Adds the numbers of a signature to a text: the type that it covers, its algorithm, its labels field and the tag of its key.
fn push_numbers(
    alloc: Global,
    signature: &Signature<'_, '_>,
    text: &mut Vec<u8>,
) -> Result<(), AllocError>
    ensures { OnOk result (text.new.items ≡ text.old.items ++ signature_numbers signature.now.octets) }
{
    push_number(alloc, signature.type_covered().code.get(), text)?;
    push_number(alloc, u16::from(signature.algorithm()), text)?;
    push_number(alloc, u16::from(signature.labels()), text)?;
    push_number(alloc, signature.key_tag(), text)
}

/// Adds the line of a signature among records to a text, by the records' canonical forms.
fn push_signature_line(
    alloc: Global,
    forms: &[CanonicalForm<'_>],
    signature: &Signature<'_, '_>,
    text: &mut Vec<u8>,
) -> Result<(), AllocError>
    requires { labels_field signature.now.octets ≤ length signature.now.owner }
    ensures { OnOk result (text.new.items ≡ text.old.items ++ signature_line forms.now signature.now) }
{
    push_numbers(alloc, signature, text)?;
    push_octets(signature.signer().as_bytes(), text)?;
    push_octets(signature.signature(), text)?;
    let octets = signed_octets(alloc, forms, signature)?;
    push_hex_line(&octets, text)
}

/// Adds the line that answers a signature among records to a text: a marked one if the labels field is more than the number of the owner's
/// labels.
fn push_signature_answer(
    alloc: Global,
    forms: &[CanonicalForm<'_>],
    signature: &Signature<'_, '_>,
    text: &mut Vec<u8>,
) -> Result<(), AllocError>
    ensures { OnOk result (text.new.items ≡ text.old.items ++ signature_answer forms.now signature.now) }
{
    if signature.has_too_many_labels() {
        return push_marked(
            alloc,
            Notice::Own(DenialReason::TooManyLabels.words()),
            text,
        );
    }
    push_signature_line(alloc, forms, signature, text)
}

/// Adds the line that answers a record to a text, if it is a signature.
fn push_signature_part(
    alloc: Global,
    forms: &[CanonicalForm<'_>],
    found: &CanonicalForm<'_>,
    text: &mut Vec<u8>,
) -> Result<(), AllocError>
    ensures { OnOk result (text.new.items ≡ text.old.items ++ signature_part forms.now found.now) }
{
    match Signature::of(found) {
        Some(signature) => push_signature_answer(alloc, forms, &signature, text),
        None => Ok(()),
    }
}

/// The lines that answer the signatures among records, by the records' canonical forms.
fn signature_lines(alloc: Global, forms: &[CanonicalForm<'_>]) -> Result<Vec<u8>, AllocError>
    ensures { IfOk result (λ text. text.items ≡ signature_lines forms.now) }
{
    let mut text = Vec::new(alloc);
    for found in forms {
        push_signature_part(alloc, forms, found, &mut text)?;
    }
    Ok(text)
}

/// Adds a line for each signature of a message, in canonical order and alike ones once, to answers: what is needed to verify it (RFC 4035
/// section 5.3.3). Names are in lowercase in the data of each type that RFC 4034 section 6.2 lists.
pub(crate) fn add_signed(
    alloc: Global,
    reader: &mut TextReader,
    line: &[u8],
    answers: &mut Vec<u8>,
) -> Result<(), PrintError<NormalRefusal>>
    ensures added { OnOk result (AddsPrinted LineCommand.Signed line.now answers.old.items answers.new.items) }
    ensures accepted { OnOk result (listed_refusal line.now ≡ None) }
    ensures refused { IfErr result (RefusesFor (listed_refusal line.now)) }
    ensures unchanged { OnErr result (answers.new.items ≡ answers.old.items) }
{
    let forms = reader.read_forms_by(alloc, line, OneMessage, Formats::Listed)?;
    let order = forms.collapsed(alloc)?;
    let lines = signature_lines(alloc, order.forms())?;
    answers.extend_from_slice(&lines)?;
    Ok(())
}
