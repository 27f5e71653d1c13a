//! The commands over lines.

ghost use Rattle.std.specs.Prelude.{◌≡◌};
ghost use Rattle.dns_lines.specs.Runs.{EndedFor, Ran, note_of};
ghost use Rattle.dns_lines.specs.Words.{command_named, command_of, zone_command};
ghost use Rattle.dns_text.specs.Outside.{HasCause, Puts};

use crate::filter::answer_lines;
use crate::status::LinesStatus;
use dns_command::{Notice, put_notice};
use dns_name::RevNameBuf;
use dns_text::{Args, Failed, Sink, Source};
use std::alloc::Global;

/// What each line is answered by.
#[derive(Debug, Drop)]
pub enum LineCommand {
    /// `normal`: the normal form of the line's message, in hexadecimal digits.
    Normal,
    /// `digest`: the SHA-384 digest of the canonical octets of the records of the line's message, in hexadecimal digits.
    Digest,
    /// `signed`: a line for each signature of the line's message, with what it says and the octets that it is over.
    Signed,
    /// `records`: a line for each record of the line's message; `records APEX`: for each of the apex's zone.
    Records(Option<RevNameBuf>),
}

/// The command that a word is.
fn command_named(word: &str) -> Option<LineCommand>
    ensures { result ≡ command_named word.now }
{
    match word {
        "normal" => Some(LineCommand::Normal),
        "digest" => Some(LineCommand::Digest),
        "signed" => Some(LineCommand::Signed),
        "records" => Some(LineCommand::Records(None)),
        _ => None,
    }
}

/// The command that a word and the text of an apex are.
fn zone_command(word: &str, text: &str) -> Option<LineCommand>
    ensures { result ≡ zone_command word.now text.now }
{
    if word != "records" {
        return None;
    }
    match RevNameBuf::parse_str(text.as_bytes()) {
        Ok(apex) => Some(LineCommand::Records(Some(apex))),
        Err(_) => None,
    }
}

/// The command that the words are: `normal`, `digest`, `signed` or `records` alone, or `records APEX`, and no others.
fn command_of(args: &Args) -> Option<LineCommand>
    ensures { result ≡ command_of args.now }
{
    match (args.get(0), args.get(1), args.get(2)) {
        (Some(word), None, None) => command_named(word),
        (Some(word), Some(text), None) => zone_command(word, text),
        _ => None,
    }
}

/// Writes the line for a status.
fn put_note<N: Sink>(status: LinesStatus, notes: &mut N) -> Result<(), Failed>
    ensures quiet { status ≡ LinesStatus.Done → notes.new ≡ notes.old }
    ensures puts { Puts (N.written notes.old) (N.written notes.new) (note_of status) result }
    ensures cause { HasCause (N.faults notes.old) (N.faults notes.new) result }
{
    match status {
        LinesStatus::Done => Ok(()),
        LinesStatus::TooLong => put_notice(Notice::TooLong, notes),
        LinesStatus::Usage => put_notice(Notice::Usage, notes),
        LinesStatus::ReadFault => put_notice(Notice::ReadFault, notes),
        LinesStatus::WriteFault => put_notice(Notice::WriteFault, notes),
        LinesStatus::Memory => put_notice(Notice::Memory, notes),
    }
}

/// Carries out the command; where the words are no command, none is given.
fn execute<S: Source, K: Sink>(
    alloc: Global,
    command: &Option<LineCommand>,
    source: &mut S,
    sink: &mut K,
) -> LinesStatus
    ensures { EndedFor S.Source K.Sink command.now source.old source.new sink.old sink.new result }
{
    match command {
        Some(command) => answer_lines(alloc, command, source, sink),
        None => LinesStatus::Usage,
    }
}

/// Answers each line of the source's text, in their order: `normal` by the normal form of the message that the line has in hexadecimal
/// digits, `digest` by the SHA-384 digest of the canonical octets of its records, and `signed` by a line for each of its signatures: what
/// the signature says, and the octets that it is over (RFC 4035 section 5.3.2), and `records` by a line for each of its records, or with an apex for each of its zone. A
/// line whose message is refused, and a signature whose
/// labels are too many, are answered by `!` and why: a refused line ends nothing. A line of more than 131,072 octets is too long. A line ends at LF, or at the
/// end of the text unless it is empty there. The answers to the lines that a read has ended are written and flushed before the next
/// read; so memory is needed for one read, for the answers to it, and for one message. If the words are no command, or the run
/// stops before the end of the text, a line on `notes` says why.
pub fn run_lines<S: Source, K: Sink, N: Sink>(
    alloc: Global,
    args: &Args,
    source: &mut S,
    sink: &mut K,
    notes: &mut N,
) -> LinesStatus
    ensures { Ran S.Source K.Sink N.Sink (command_of args.now) source.old source.new sink.old sink.new notes.old notes.new result }
{
    let status = execute(alloc, &command_of(args), source, sink);
    // A fault of the notes changes no answer.
    let _ = put_note(status, notes);
    status
}
