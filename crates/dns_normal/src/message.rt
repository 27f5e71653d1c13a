//! The normal form of a message.

ghost use Rattle.std.specs.Prelude.{◌≡◌, ◌≤◌, ◌+◌, ℕ, min, List, ◌++◌, ◌∷◌, [], None, IfOk, IfErr, length, map};
ghost use Rattle.std.specs.List.{All, concat};
ghost use Rattle.dns_command.specs.Outcomes.{RefusesFor};
ghost use Rattle.dns_message.specs.Canonical.{canonical_wire, lowercase_names};
ghost use Rattle.dns_message.specs.FormsRead.{forms_of};
ghost use Rattle.dns_message.specs.Messages.{RecordValue, Valid, message_reading};
ghost use Rattle.dns_message.specs.Order.{octets_of_key};
ghost use Rattle.dns_message.specs.WellFormed.{WellFormed};
ghost use Rattle.dns_normal.specs.Answers.{AreRecordsOf, HasAnswers, HasAnswersIfFew, HaveRecords, IsRecordOf};
ghost use Rattle.dns_normal.specs.Normal.{answers_message, normal_form};
ghost use Rattle.dns_command.specs.Refusals.{reading_refusal};
ghost use Rattle.dns_command.specs.Texts.{HasRecords};
ghost use Rattle.dns_normal.specs.Texts.{form_refusal, normal_refusal, size_refusal};

use crate::refusal::{NormalReason, NormalRefusal};
use dns_command::{OneMessage, PrintError, Refusal, TextReader, read_message};
use dns_message::{
    CanonicalForm, CanonicalForms, CanonicalList, HeaderFlags, MAX_MESSAGE_SIZE, MessageBuildError,
    MessageBuilder,
};
use dns_name::Name;
use dns_num::U16;
use dns_rdata::RecordData;
use dns_record::Record;
use dns_text::zeros;
use dns_wire::{HEADER_SIZE, NameCompressor, SplitBytes};
use std::alloc::Global;

/// Adds a record as an answer, lowercased: it is read from its canonical form.
fn push_record(
    builder: &mut MessageBuilder<'_>,
    form: &CanonicalForm<'_>,
) -> Result<(), MessageBuildError>
    requires { IsRecordOf (octets_of_key form.now) }
    ensures { (most : ℕ) (rs : List RecordValue) (r : RecordValue) → HasAnswers most rs builder.old → WellFormed r → canonical_wire r ≡ octets_of_key form.now
        → HasAnswersIfFew most (rs ++ lowercase_names r ∷ []) builder.new result }
{
    let (lowercased, _) = Record::<Name<'_>, RecordData<'_, Name<'_>>>::split_bytes(
        form.octets(),
    ).unwrap();
    builder.push_answer(&lowercased)
}

/// Adds the records as answers, lowercased, to a message that has none.
fn push_records(
    builder: &mut MessageBuilder<'_>,
    forms: &[CanonicalForm<'_>],
) -> Result<(), MessageBuildError>
    requires { HaveRecords (map octets_of_key forms.now) }
    ensures { (most : ℕ) (rs : List RecordValue) → HasAnswers most [] builder.old → AreRecordsOf (map octets_of_key forms.now) rs
        → HasAnswersIfFew most (map lowercase_names rs) builder.new result }
{
    for form in forms {
        push_record(builder, form)?;
    }
    Ok(())
}

/// The octets of a header and the canonical octets of the records, which are enough for the message; but no more than a message may have.
fn room_for(list: &CanonicalList<'_>) -> usize
    ensures { result ≡ min MAX_MESSAGE_SIZE (HEADER_SIZE + length (concat (map octets_of_key list.now))) }
{
    list.octet_count()
        .saturating_add(HEADER_SIZE)
        .min(MAX_MESSAGE_SIZE)
}

/// The message that has these records as answers, lowercased, with names that are written once.
fn answers_message(
    alloc: Global,
    list: &CanonicalList<'_>,
) -> Result<Vec<u8>, PrintError<NormalRefusal>>
    requires { HaveRecords (map octets_of_key list.now) }
    ensures built { (rs : List RecordValue) → AreRecordsOf (map octets_of_key list.now) rs
        → IfOk result (λ octets. octets.items ≡ answers_message (map lowercase_names rs)) }
    ensures accepted { (rs : List RecordValue) → AreRecordsOf (map octets_of_key list.now) rs
        → IfOk result (λ _. length (answers_message (map lowercase_names rs)) ≤ MAX_MESSAGE_SIZE) }
    ensures refused { (rs : List RecordValue) → AreRecordsOf (map octets_of_key list.now) rs
        → IfErr result (RefusesFor (size_refusal (answers_message (map lowercase_names rs)))) }
{
    let mut buffer = zeros(alloc, room_for(list))?;
    let mut compressor = NameCompressor::new();
    let (id, flags) = (U16::new(0), HeaderFlags::from_bits(0));
    let mut builder = MessageBuilder::new(&mut buffer, &mut compressor, id, flags);
    if push_records(&mut builder, list.forms()).is_err() {
        return Err(PrintError::Refused(Refusal::Own(NormalReason::TooLarge)));
    }
    let built = Vec::from_slice(alloc, builder.message().as_bytes())?;
    Ok(built)
}

/// The message that has the records of these forms as answers, lowercased and in canonical order, alike ones once.
fn form_of(alloc: Global, forms: &CanonicalForms) -> Result<Vec<u8>, PrintError<NormalRefusal>>
    requires { (rs : List RecordValue) × All WellFormed rs × (forms.now ≡ forms_of rs) }
    ensures formed { (rs : List RecordValue) → All WellFormed rs → forms.now ≡ forms_of rs → IfOk result (λ form. form.items ≡ normal_form rs) }
    ensures accepted { (rs : List RecordValue) → All WellFormed rs → forms.now ≡ forms_of rs → IfOk result (λ _. form_refusal rs ≡ None) }
    ensures refused { (rs : List RecordValue) → All WellFormed rs → forms.now ≡ forms_of rs → IfErr result (RefusesFor (form_refusal rs)) }
{
    let order = forms.collapsed(alloc)?;
    answers_message(alloc, &order)
}

/// The normal form of a message: a message with its records other than OPT in canonical order, alike ones once, as answers whose names are
/// in lowercase where canonical form has them so, and are written once (RFC 4034 section 6, RFC 1035 section 4.1.4). At most 65,535 octets;
/// a longer one is `NormalReason::TooLarge`, and `Refusal::Short` and `Refusal::Item` are those of a message that is not valid.
pub fn normal_form(alloc: Global, message: &[u8]) -> Result<Vec<u8>, PrintError<NormalRefusal>>
    ensures formed { IfOk result (λ form. (rs : List RecordValue) × Valid message.now rs × (form.items ≡ normal_form rs)) }
    ensures accepted { IfOk result (λ _. reading_refusal (record {}) form_refusal (message_reading message.now) ≡ None) }
    ensures refused { IfErr result (RefusesFor (reading_refusal (record {}) form_refusal (message_reading message.now))) }
{
    let forms = read_message(alloc, message, OneMessage)?;
    form_of(alloc, &forms)
}

/// The normal form of the message that a text spells, as `normal_form` has it. `Refusal::BadHex` is that of a text that is not pairs of
/// hexadecimal digits.
pub fn read_normal_form(
    alloc: Global,
    reader: &mut TextReader,
    text: &[u8],
) -> Result<Vec<u8>, PrintError<NormalRefusal>>
    ensures formed { IfOk result (λ form. (rs : List RecordValue) × HasRecords text.now rs × (form.items ≡ normal_form rs)) }
    ensures accepted { IfOk result (λ _. normal_refusal tt text.now ≡ None) }
    ensures refused { IfErr result (RefusesFor (normal_refusal tt text.now)) }
{
    let forms = reader.read_forms(alloc, text, OneMessage)?;
    form_of(alloc, forms)
}
