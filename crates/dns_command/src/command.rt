//! Commands that print a text, most of them for one that they read, over a source, a sink and notes.

ghost use Rattle.std.specs.Prelude.{◌≡◌, ◌≢◌, ◌≤◌, ℕ, Bool, List, length, Option, Some, None, true};
ghost use Rattle.dns_text.specs.Outside.{Rose, HasCause, BecomesFlag, Puts};
ghost use Rattle.dns_command.specs.Endings.{AllowedAs, Ended, Ran, WritesAs};
ghost use Rattle.dns_command.specs.Notes.{notice_line};
ghost use Rattle.dns_command.specs.Outcomes.{PutsFor, ending_of, note_of, refused_or_done, text_rules};

use crate::notice::{Notice, put_notice};
use crate::outcome::{Outcome, PutError};
use dns_text::{Failed, Sink, Source, read_text};
use std::alloc::Global;

/// A command that prints a text for the text that it reads, or without reading one. Whatever it is, `run_command` carries it out.
pub trait TextCommand: Drop {
    /// Why a text is refused.
    type Refusal: Copy;

    /// Whether a text is read. If none is, the command prints its text for an empty one.
    ghost reads: { Self → Bool };

    /// The most octets of the text that is read.
    ghost limit: { Self → ℕ };

    /// Why a text is refused; `None` if one is printed for it.
    ghost refusal: { Self → List ℕ → Option Self.Refusal };

    /// The text that is printed for a text.
    ghost prints: { Self → List ℕ → List ℕ → Type 0 };

    /// The line that is noted for a refusal.
    ghost refusal_note: { Self.Refusal → List ℕ };

    /// Whether a text is read. If none is, the command prints its text for an empty one.
    fn reads_text(&self) -> bool
        ensures { result ≡ reads self.now };

    /// The most octets of the text that is read.
    fn text_limit(&self) -> usize
        ensures { result ≡ limit self.now };

    /// Writes the whole text that is printed for a text, and sees to it that it arrives. All memory is taken before the first octet is
    /// written.
    fn put<K: Sink>(
        &self,
        alloc: Global,
        text: &[u8],
        sink: &mut K,
    ) -> Result<(), PutError<Self::Refusal>>
        requires { length text.now ≤ limit self.now }
        ensures { PutsFor K.Sink (refusal self.now text.now) (prints self.now text.now) sink.old sink.new result };

    /// What is noted for a refusal.
    fn notice(refused: Self::Refusal) -> Notice
        ensures { notice_line result ≡ refusal_note refused };
}

/// Writes what the command prints for a text.
fn put_for<C: TextCommand, K: Sink>(
    alloc: Global,
    command: &C,
    text: &[u8],
    sink: &mut K,
) -> Outcome<C::Refusal>
    requires { length text.now ≤ C.limit command.now }
    ensures allowed { AllowedAs Outcome.Done Outcome.Usage (ending_of result) (refused_or_done (C.refusal command.now text.now)) result }
    ensures no_others { (result ≢ Outcome.Usage) × (result ≢ Outcome.TooLong) × (result ≢ Outcome.ReadFault) }
    ensures write_fault { result ≡ Outcome.WriteFault → Rose (K.faults sink.old) (K.faults sink.new) }
    ensures write_steady { (result ≢ Outcome.WriteFault) → K.faults sink.new ≡ K.faults sink.old }
    ensures written { WritesAs (C.prints command.now text.now) (K.written sink.old) (K.written sink.new) (ending_of result) }
    ensures unwritten { (result ≢ Outcome.Done) → (result ≢ Outcome.WriteFault) → sink.new ≡ sink.old }
    ensures flushed { result ≡ Outcome.Done → BecomesFlag (K.is_flushed sink.old) (K.is_flushed sink.new) true }
{
    match command.put(alloc, text, sink) {
        Ok(()) => Outcome::Done,
        Err(error) => Outcome::from(error),
    }
}

/// Reads the text of the command, if it reads one, and writes what the command prints for it.
fn carry_out<C: TextCommand, S: Source, K: Sink>(
    alloc: Global,
    command: &C,
    source: &mut S,
    sink: &mut K,
) -> Outcome<C::Refusal>
    ensures { Ended S.Source K.Sink (text_rules C.reads C.limit C.refusal C.prints) (Some command.now) source.old source.new sink.old sink.new result }
{
    if !command.reads_text() {
        return put_for(alloc, command, &[], sink);
    }
    match read_text(alloc, source, command.text_limit()) {
        Ok(text) => put_for(alloc, command, &text, sink),
        Err(error) => Outcome::from(error),
    }
}

/// Carries out the command; where the words are no command, none is given.
fn execute<C: TextCommand, S: Source, K: Sink>(
    alloc: Global,
    command: &Option<C>,
    source: &mut S,
    sink: &mut K,
) -> Outcome<C::Refusal>
    ensures { Ended S.Source K.Sink (text_rules C.reads C.limit C.refusal C.prints) command.now source.old source.new sink.old sink.new result }
{
    match command {
        Some(command) => carry_out(alloc, command, source, sink),
        None => Outcome::Usage,
    }
}

/// Writes the line for an outcome.
fn put_note<C: TextCommand, N: Sink>(
    outcome: Outcome<C::Refusal>,
    notes: &mut N,
) -> Result<(), Failed>
    ensures quiet { outcome ≡ Outcome.Done → notes.new ≡ notes.old }
    ensures puts { Puts (N.written notes.old) (N.written notes.new) (note_of C.refusal_note outcome) result }
    ensures cause { HasCause (N.faults notes.old) (N.faults notes.new) result }
{
    match outcome {
        Outcome::Done => Ok(()),
        Outcome::Usage => put_notice(Notice::Usage, notes),
        Outcome::TooLong => put_notice(Notice::TooLong, notes),
        Outcome::Refused(refused) => put_notice(C::notice(refused), notes),
        Outcome::ReadFault => put_notice(Notice::ReadFault, notes),
        Outcome::WriteFault => put_notice(Notice::WriteFault, notes),
        Outcome::Memory => put_notice(Notice::Memory, notes),
    }
}

/// Answers a command: writes what it prints for the source's text, or says on `notes` why nothing is printed. A command that reads no text
/// leaves the source unchanged. If the words are no command, none is given. All memory is taken before the first octet is written.
pub fn run_command<C: TextCommand, S: Source, K: Sink, N: Sink>(
    alloc: Global,
    command: &Option<C>,
    source: &mut S,
    sink: &mut K,
    notes: &mut N,
) -> Outcome<C::Refusal>
    ensures { Ran S.Source K.Sink N.Sink (text_rules C.reads C.limit C.refusal C.prints) (note_of C.refusal_note) command.now source.old source.new sink.old sink.new notes.old notes.new result }
{
    let outcome = execute(alloc, command, source, sink);
    // A fault of the notes changes no answer.
    let _ = put_note::<C, N>(outcome, notes);
    outcome
}
