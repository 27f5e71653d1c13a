//! The answer to one line.

ghost use Rattle.std.specs.Prelude.{◌≡◌, ◌++◌, None, IfErr, OnOk, OnErr};
ghost use Rattle.dns_command.specs.Outcomes.{RefusesFor};
ghost use Rattle.dns_command.specs.Notes.{notice_line};
ghost use Rattle.dns_lines.specs.Answers.{AddsAnswer, AddsPrinted, refusal_for};
ghost use Rattle.dns_lines.specs.Signatures.{marked};

use crate::command::LineCommand;
use crate::digest::add_digest;
use crate::line::LINE_LIMIT;
use crate::records::add_records;
use crate::signed::add_signed;
use dns_command::{Notice, PrintError, TextReader};
use dns_normal::{NormalRefusal, read_normal_form};
use dns_text::push_hex_line;
use std::alloc::{AllocError, Global};

/// Adds the normal form of the message in a line, in hexadecimal digits, and LF to answers.
fn add_normal_form(
    alloc: Global,
    reader: &mut TextReader,
    line: &[u8],
    answers: &mut Vec<u8>,
) -> Result<(), PrintError<NormalRefusal>>
    ensures added { OnOk result (AddsPrinted LineCommand.Normal line.now answers.old.items answers.new.items) }
    ensures accepted { OnOk result (refusal_for LineCommand.Normal line.now ≡ None) }
    ensures refused { IfErr result (RefusesFor (refusal_for LineCommand.Normal line.now)) }
    ensures unchanged { OnErr result (answers.new.items ≡ answers.old.items) }
{
    let form = read_normal_form(alloc, reader, line)?;
    push_hex_line(&form, answers)?;
    Ok(())
}

/// Adds what the command prints for the message in a line to answers.
fn add_printed(
    alloc: Global,
    command: &LineCommand,
    reader: &mut TextReader,
    line: &[u8],
    answers: &mut Vec<u8>,
) -> Result<(), PrintError<NormalRefusal>>
    ensures added { OnOk result (AddsPrinted command.now line.now answers.old.items answers.new.items) }
    ensures accepted { OnOk result (refusal_for command.now line.now ≡ None) }
    ensures refused { IfErr result (RefusesFor (refusal_for command.now line.now)) }
    ensures unchanged { OnErr result (answers.new.items ≡ answers.old.items) }
{
    match command {
        LineCommand::Normal => add_normal_form(alloc, reader, line, answers),
        LineCommand::Digest => add_digest(alloc, reader, line, answers),
        LineCommand::Signed => add_signed(alloc, reader, line, answers),
        LineCommand::Records(apex) => add_records(alloc, reader, line, apex, answers),
    }
}

/// Adds the line of a notice, marked, to a text. `AllocError` is out of memory, and adds nothing.
pub(crate) fn push_marked(
    alloc: Global,
    notice: Notice,
    text: &mut Vec<u8>,
) -> Result<(), AllocError>
    ensures added { OnOk result (text.new.items ≡ text.old.items ++ marked (notice_line notice)) }
    ensures unchanged { OnErr result (text.new.items ≡ text.old.items) }
{
    let line = format!(in alloc; "! {}\n", notice)?;
    text.extend_from_slice(line.as_bytes())
}

/// Adds the answer to a line to others. `AllocError` is out of memory, and adds nothing.
pub(crate) fn add_answer(
    alloc: Global,
    command: &LineCommand,
    reader: &mut TextReader,
    line: &[u8],
    answers: &mut Vec<u8>,
) -> Result<(), AllocError>
    ensures added { OnOk result (AddsAnswer command.now line.now answers.old.items answers.new.items) }
    ensures unchanged { OnErr result (answers.new.items ≡ answers.old.items) }
{
    if line.len() > LINE_LIMIT {
        return push_marked(alloc, Notice::TooLong, answers);
    }
    match add_printed(alloc, command, reader, line, answers) {
        Ok(()) => Ok(()),
        Err(PrintError::Refused(refused)) => push_marked(alloc, refused.notice(), answers),
        Err(PrintError::Memory) => Err(AllocError),
    }
}
