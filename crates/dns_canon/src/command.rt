//! From words and a text to an answer.

ghost use Rattle.std.specs.Prelude.{◌↔◌, true, false, ◌≡◌, ◌≢◌, ◌⊎◌, ◌+◌, ◌≤◌, [], ◌∷◌, ◌++◌, List, None, codes, length, map, Some, IfOk, IfErr, IfSome, IsTrue};
ghost use Rattle.std.specs.Io.KnownBytes.{Appends};
ghost use Rattle.dns_wire.specs.Octets.{Octets};
ghost use Rattle.dns_text.specs.Hexadecimal.{Spells};
ghost use Rattle.dns_text.specs.Outside.{Rose, BecomesFlag, WritesPrefix};
ghost use Rattle.dns_text.specs.Taken.{TakesAtMost};
ghost use Rattle.dns_message.specs.FormsRead.{forms_of};
ghost use Rattle.dns_message.specs.Messages.{RecordValue, Valid};
ghost use Rattle.dns_message.specs.Order.{octets_of_key};
ghost use Rattle.dns_command.specs.Outcomes.{PutsFor, RefusesFor};
ghost use Rattle.dns_canon.specs.ExpectedStatus.{canon_refusal, command_reads, expected_status, limit_of, reads, text_read};
ghost use Rattle.dns_canon.specs.Run.{AllowedStatus, Empties, Prints, WritesText};
ghost use Rattle.dns_canon.specs.Statuses.{canon_note, note_of};
ghost use Rattle.dns_canon.specs.Words.{command_of};
ghost use Rattle.dns_canon.specs.declared.words.TheConstants.{MOST_RECORDS};

use crate::lines::{LineBuffer, put_forms};
use crate::make::make_text;
use crate::parts::parted;
use crate::status::{CanonRefusal, Status};
use crate::words::{CanonCommand, Command, LIMIT_OF_TWO, command_of};
use dns_command::{
    Notice, PrintError, PutError, Refusal, TextCommand, put_printed, read_message, run_command,
};
use dns_message::{CanonicalForms, CanonicalList};
use dns_text::{Args as Words, MESSAGE_TEXT_LIMIT, READ_CHUNK, Sink, Source, octets_of};
use std::alloc::Global;

/// Whether two canonical lists are the same. Each borrows forms of its own.
fn are_same(list: &CanonicalList<'_>, other: &CanonicalList<'_>) -> bool
    ensures { IsTrue result ↔ (map octets_of_key list.now ≡ map octets_of_key other.now) }
{
    *list == *other
}

/// The word for whether two messages carry the same records, and LF.
fn sameness(same: bool) -> &'static [u8]
    ensures same { same ≡ true → result.now ≡ codes "same" ++ 10 ∷ [] }
    ensures different { same ≡ false → result.now ≡ codes "different" ++ 10 ∷ [] }
{
    if same { b"same\n" } else { b"different\n" }
}

/// The line for the text of two messages: `same` if they carry the same records, and else `different`.
fn print_same(alloc: Global, text: &[u8]) -> Result<Vec<u8>, PrintError<CanonRefusal>>
    requires { length text.now ≤ LIMIT_OF_TWO }
    ensures printed { IfOk result (λ printed. Prints Command.Same text.now printed.items) }
    ensures accepted { IfOk result (λ _. canon_refusal Command.Same text.now ≡ None) }
    ensures refused { IfErr result (RefusesFor (canon_refusal Command.Same text.now)) }
{
    let (first, second) = parted(text);
    let first_message = octets_of(alloc, first)?;
    let second_message = octets_of(alloc, second)?;
    let first_forms = read_message(alloc, &first_message, 0)?;
    let second_forms = read_message(alloc, &second_message, 1)?;
    let first_order = first_forms.collapsed(alloc)?;
    let second_order = second_forms.collapsed(alloc)?;
    let line = Vec::from_slice(alloc, sameness(are_same(&first_order, &second_order)))?;
    Ok(line)
}

/// The line on the message of that many generated records.
fn print_make(alloc: Global, count: u16) -> Result<Vec<u8>, PrintError<CanonRefusal>>
    requires { count ≤ MOST_RECORDS }
    ensures printed { IfOk result (λ printed. Prints (Command.Make count) [] printed.items) }
    ensures refused { IfErr result (RefusesFor None) }
{
    match make_text(alloc, count) {
        Ok(line) => Ok(line),
        Err(error) => Err(Refusal::of(0, error)),
    }
}

/// The canonical forms of the message that a text spells.
fn forms_of_text(alloc: Global, text: &[u8]) -> Result<CanonicalForms, PrintError<CanonRefusal>>
    ensures forms { IfOk result (λ forms. (message : Octets) × (rs : List RecordValue) × Spells text.now message × Valid message rs × (forms ≡ forms_of rs)) }
    ensures refused { IfErr result (RefusesFor (canon_refusal Command.Canon text.now)) }
{
    let message = octets_of(alloc, text)?;
    read_message(alloc, &message, 0)
}

/// Writes the lines for the text of one message.
fn put_canon<K: Sink>(
    alloc: Global,
    text: &[u8],
    sink: &mut K,
) -> Result<(), PutError<CanonRefusal>>
    requires { length text.now ≤ MESSAGE_TEXT_LIMIT }
    ensures { PutsFor K.Sink (canon_refusal Command.Canon text.now) (Prints Command.Canon text.now) sink.old sink.new result }
{
    let forms = forms_of_text(alloc, text)?;
    let order = forms.collapsed(alloc)?;
    let mut lines = LineBuffer::new(alloc)?;
    put_forms(sink, order.forms(), &mut lines)?;
    Ok(())
}

impl TextCommand for CanonCommand {
    type Refusal = CanonRefusal;

    ghost reads = { command_reads };

    ghost limit = { limit_of };

    ghost refusal = { canon_refusal };

    ghost prints = { Prints };

    ghost refusal_note = { canon_note };

    fn reads_text(&self) -> bool {
        match self.command {
            Command::Canon | Command::Same => true,
            Command::Make { .. } => false,
        }
    }

    fn text_limit(&self) -> usize {
        match self.command {
            Command::Canon => MESSAGE_TEXT_LIMIT,
            Command::Same => LIMIT_OF_TWO,
            Command::Make { .. } => 0,
        }
    }

    fn put<K: Sink>(
        &self,
        alloc: Global,
        text: &[u8],
        sink: &mut K,
    ) -> Result<(), PutError<CanonRefusal>> {
        match self.command {
            Command::Canon => put_canon(alloc, text, sink),
            Command::Same => put_printed(print_same(alloc, text), sink),
            Command::Make { count } => put_printed(print_make(alloc, count), sink),
        }
    }

    fn notice(refused: CanonRefusal) -> Notice {
        match refused.message_notice() {
            Ok(notice) => notice,
            Err(reason) => match reason {},
        }
    }
}

/// Answers the words: writes what their command prints for the source's text, or says on `notes` why
/// nothing is printed.
pub fn run<S: Source, K: Sink, N: Sink>(
    alloc: Global,
    words: &Words,
    source: &mut S,
    sink: &mut K,
    notes: &mut N,
) -> Status
    // Words that are no command are refused, whatever the source has.
    ensures usage { (result ≡ Status.Usage) ↔ (command_of words.now ≡ None) }

    // The answer is what the text calls for, or one that may come in its place.
    ensures expected_status { IfSome (text_read (command_of words.now) (S.left source.old)) (λ t. AllowedStatus (expected_status (command_of words.now) t) result) }

    // A fault is answered exactly if its device has counted one, and a fault of the source only if
    // the command reads. A count at its last value stays.
    ensures read_fault { result ≡ Status.ReadFault → Rose (S.faults source.old) (S.faults source.new) }
    ensures read_steady { (result ≢ Status.ReadFault) → S.faults source.new ≡ S.faults source.old }
    ensures reading { result ≡ Status.ReadFault → reads (command_of words.now) ≡ true }
    ensures write_fault { result ≡ Status.WriteFault → Rose (K.faults sink.old) (K.faults sink.new) }
    ensures write_steady { (result ≢ Status.WriteFault) → K.faults sink.new ≡ K.faults sink.old }

    // With no fault of the sink, nor of the source if the command reads, the answer is what the text
    // calls for, or memory was refused.
    ensures complete { (reads (command_of words.now) ≡ true → Rose (S.faults source.old) (S.faults source.new) → ⊥) → (Rose (K.faults sink.old) (K.faults sink.new) → ⊥)
        → IfSome (text_read (command_of words.now) (S.left source.old)) (λ t. (result ≡ expected_status (command_of words.now) t) ⊎ (result ≡ Status.Memory)) }

    // What is written.
    ensures written { IfSome (command_of words.now) (λ command. IfSome (text_read (Some command) (S.left source.old)) (λ t.
        WritesText command t (K.written sink.old) (K.written sink.new) result)) }
    ensures unwritten { (result ≢ Status.Done) → (result ≢ Status.WriteFault) → sink.new ≡ sink.old }
    ensures flushed { result ≡ Status.Done → BecomesFlag (K.is_flushed sink.old) (K.is_flushed sink.new) true }

    // What is left: at most the limit and one read are taken.
    ensures unread { reads (command_of words.now) ≡ false → source.new ≡ source.old }
    ensures emptied { reads (command_of words.now) ≡ true → Empties result (S.left source.old) (S.left source.new) }
    ensures taken { IfSome (command_of words.now) (λ command. TakesAtMost (S.left source.old) (S.left source.new) (limit_of command + READ_CHUNK)) }

    // The line for the answer goes to the notes.
    ensures quiet { result ≡ Status.Done → notes.new ≡ notes.old }
    ensures reported { WritesPrefix (N.written notes.old) (N.written notes.new) (note_of result) }
    ensures reported_whole { (Rose (N.faults notes.old) (N.faults notes.new) → ⊥)
        → Appends (N.written notes.old) (N.written notes.new) (note_of result) }
{
    let outcome = run_command(alloc, &command_of(words), source, sink, notes);
    Status::from(outcome)
}
