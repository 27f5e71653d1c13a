//! A text read in pieces, and its lines answered.

ghost use Rattle.std.specs.Prelude.{◌≡◌, ◌≢◌, ◌≤◌, ◌++◌, IfOk, OnOk, OnErr, take, true, vec_len};
ghost use Rattle.dns_wire.specs.Octets.{Octets};
ghost use Rattle.dns_text.specs.Outside.{BecomesFlag, Rose};
ghost use Rattle.dns_lines.specs.Lines.{IsLine};
ghost use Rattle.dns_lines.specs.Pieces.{AnswersFront, AnswersPiece, EndsWith, IsLastAnswer};
ghost use Rattle.dns_lines.specs.Runs.{Ended};

use crate::answer::add_answer;
use crate::command::LineCommand;
use crate::line::{KEPT_OCTETS, extend_line, split_line};
use crate::status::LinesStatus;
use dns_command::TextReader;
use dns_text::{Sink, Source, put_text};
use std::alloc::{AllocError, Global};

/// The most octets of one read.
const READ_SIZE: usize = 65_536;

/// Adds the answers to the lines that an LF in the piece ends, of which the first may have begun before it, and keeps what comes after
/// the last LF. `AllocError` is out of memory; the answers to some of the lines are then added.
fn answer_piece(
    alloc: Global,
    command: &LineCommand,
    reader: &mut TextReader,
    piece: &[u8],
    line: &mut Vec<u8>,
    answers: &mut Vec<u8>,
) -> Result<(), AllocError>
    requires { vec_len line.old ≤ KEPT_OCTETS }
    ensures answered { OnOk result ((begun : Octets) → IsLine begun → line.old.items ≡ take KEPT_OCTETS begun
        → AnswersPiece command.now (begun ++ piece.now) answers.old.items answers.new.items line.new.items) }
    ensures stopped { OnErr result ((begun : Octets) → IsLine begun → line.old.items ≡ take KEPT_OCTETS begun
        → AnswersFront command.now (begun ++ piece.now) answers.old.items answers.new.items) }
    ensures room { OnOk result (vec_len line.new ≤ KEPT_OCTETS) }
{
    let mut rest = piece;
    while let Some((end, more)) = split_line(rest) {
        extend_line(line, end)?;
        add_answer(alloc, command, reader, line, answers)?;
        line.clear();
        rest = more;
    }
    extend_line(line, rest)
}

/// The answer to what comes after the last LF, if that is a line. `AllocError` is out of memory.
fn last_answer(
    alloc: Global,
    command: &LineCommand,
    reader: &mut TextReader,
    line: &[u8],
) -> Result<Vec<u8>, AllocError>
    ensures { (rest : Octets) → line.now ≡ take KEPT_OCTETS rest → IfOk result (λ answer. IsLastAnswer command.now rest answer.items) }
{
    let mut answer = Vec::new(alloc);
    if line.is_empty() {
        return Ok(answer);
    }
    add_answer(alloc, command, reader, line, &mut answer)?;
    Ok(answer)
}

/// Writes the answer to what comes after the last LF, if that is a line.
fn end_answers<K: Sink>(
    alloc: Global,
    command: &LineCommand,
    reader: &mut TextReader,
    line: &[u8],
    sink: &mut K,
) -> LinesStatus
    ensures ended { (rest : Octets) → line.now ≡ take KEPT_OCTETS rest → EndsWith command.now rest (K.written sink.old) (K.written sink.new) result }
    ensures write_fault { result ≡ LinesStatus.WriteFault → Rose (K.faults sink.old) (K.faults sink.new) }
    ensures write_steady { (result ≢ LinesStatus.WriteFault) → K.faults sink.new ≡ K.faults sink.old }
    ensures flushed { result ≡ LinesStatus.Done → BecomesFlag (K.is_flushed sink.old) (K.is_flushed sink.new) true }
    ensures unchanged { result ≡ LinesStatus.Memory → sink.new ≡ sink.old }
{
    let Ok(answer) = last_answer(alloc, command, reader, line) else {
        return LinesStatus::Memory;
    };
    match put_text(sink, &answer) {
        Ok(()) => LinesStatus::Done,
        Err(_) => LinesStatus::WriteFault,
    }
}

/// Answers each line of the source's text. The answers to the lines that a read has ended are written and flushed before the next read.
pub(crate) fn answer_lines<S: Source, K: Sink>(
    alloc: Global,
    command: &LineCommand,
    source: &mut S,
    sink: &mut K,
) -> LinesStatus
    ensures { Ended S.Source K.Sink command.now source.old source.new sink.old sink.new result }
{
    let mut piece = [0u8; READ_SIZE];
    let mut reader = TextReader::new(alloc);
    let Ok(mut line) = Vec::with_capacity(alloc, KEPT_OCTETS) else {
        return LinesStatus::Memory;
    };
    let mut answers = Vec::new(alloc);
    for _read in 0..u64::MAX {
        let Ok(count) = source.read(&mut piece) else {
            return LinesStatus::ReadFault;
        };
        if count == 0 {
            return end_answers(alloc, command, &mut reader, &line, sink);
        }
        let answered = answer_piece(
            alloc,
            command,
            &mut reader,
            &piece[..count],
            &mut line,
            &mut answers,
        );
        if put_text(sink, &answers).is_err() {
            return LinesStatus::WriteFault;
        }
        if answered.is_err() {
            return LinesStatus::Memory;
        }
        answers.clear();
    }
    LinesStatus::TooLong
}
