//! Reading the messages that texts spell.

ghost use Rattle.std.specs.Prelude.{◌≡◌, List, Option, IfOk, IfErr};
ghost use Rattle.dns_command.specs.Outcomes.{RefusesFor};
ghost use Rattle.dns_command.specs.Refusals.{message_error, message_refusal, message_refusal_by, reading_refusal};
ghost use Rattle.dns_command.specs.Texts.{HasRecords, HasRecordsBy};
ghost use Rattle.dns_record.specs.FurtherFormats.{data_by};
ghost use Rattle.dns_message.specs.FormsRead.{forms_of};
ghost use Rattle.dns_message.specs.Messages.{RecordValue, Valid, message_reading};
ghost use Rattle.dns_command.specs.declared.refusal.Refusal.{Refusal};
ghost use Rattle.dns_message.specs.Refusals.{RefusedOrMemory};
ghost use Rattle.dns_message.specs.declared.canon_error.CanonError.{CanonError};

use crate::outcome::PrintError;
use crate::refusal::Refusal;
use dns_message::{CanonicalForms, FormsReader, read_forms};
use dns_record::Formats;
use dns_text::read_octets;
use std::alloc::Global;

/// The canonical forms of the records other than OPT of a message. A refusal is that of the message of this number.
pub fn read_message<M: Copy, R>(
    alloc: Global,
    message: &[u8],
    number: M,
) -> Result<CanonicalForms, PrintError<Refusal<M, R>>>
    ensures read { IfOk result (λ forms. (rs : List RecordValue) × Valid message.now rs × (forms ≡ forms_of rs)) }
    ensures error { IfErr result (λ refused. (error : CanonError) × RefusedOrMemory message.now error × (refused ≡ message_error number error)) }
    ensures refused { (refusal : List RecordValue → Option (Refusal M R)) → IfErr result (RefusesFor (reading_refusal number refusal (message_reading message.now))) }
{
    match read_forms(alloc, message) {
        Ok(forms) => Ok(forms),
        Err(error) => Err(Refusal::of(number, error)),
    }
}

/// Reads the messages that texts of hexadecimal digits spell, one after another in the same memory.
#[derive(Drop)]
pub struct TextReader {
    message: Vec<u8>,
    forms: FormsReader,
}

impl TextReader {
    /// A reader that has read no text. No memory is taken.
    pub fn new(alloc: Global) -> TextReader {
        TextReader {
            message: Vec::new(alloc),
            forms: FormsReader::new(alloc),
        }
    }

    /// The canonical forms of the records other than OPT of the message that the text spells. A refusal of the message is that of the
    /// message of this number.
    pub fn read_forms<M: Copy, R>(
        &mut self,
        alloc: Global,
        text: &[u8],
        number: M,
    ) -> Result<&CanonicalForms, PrintError<Refusal<M, R>>>
        ensures read { IfOk result (λ forms. (rs : List RecordValue) × HasRecords text.now rs × (forms.now ≡ forms_of rs)) }
        ensures refused { (refusal : List RecordValue → Option (Refusal M R)) → IfErr result (RefusesFor (message_refusal number refusal text.now)) }
    {
        self.read_forms_by(alloc, text, number, Formats::Usual)
    }

    /// The canonical forms of the records other than OPT of the message that the text spells, by these formats. A refusal of the message
    /// is that of the message of this number.
    pub fn read_forms_by<M: Copy, R>(
        &mut self,
        alloc: Global,
        text: &[u8],
        number: M,
        formats: Formats,
    ) -> Result<&CanonicalForms, PrintError<Refusal<M, R>>>
        ensures read { IfOk result (λ forms. (rs : List RecordValue) × HasRecordsBy (data_by formats) text.now rs × (forms.now ≡ forms_of rs)) }
        ensures refused { (refusal : List RecordValue → Option (Refusal M R)) → IfErr result (RefusesFor (message_refusal_by (data_by formats) number refusal text.now)) }
    {
        read_octets(text, &mut self.message)?;
        match self.forms.read_by(alloc, &self.message, formats) {
            Ok(forms) => Ok(forms),
            Err(error) => Err(Refusal::of(number, error)),
        }
    }
}
