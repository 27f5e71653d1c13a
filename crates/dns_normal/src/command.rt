//! The command `normal`.

ghost use Rattle.std.specs.Prelude.{◌≡◌, None, IfOk, IfErr, true};
ghost use Rattle.dns_command.specs.Endings.{Ran};
ghost use Rattle.dns_command.specs.Outcomes.{RefusesFor, note_of};
ghost use Rattle.dns_normal.specs.Texts.{PrintsNormal, command_of, normal_limit, normal_note, normal_refusal, normal_rules, outcome_of};

use crate::message::read_normal_form;
use crate::refusal::NormalRefusal;
use crate::status::NormalStatus;
use dns_command::{
    Notice, PrintError, PutError, TextCommand, TextReader, put_printed, run_command,
};
use dns_text::{Args, MESSAGE_TEXT_LIMIT, Sink, Source, hex_line};
use std::alloc::Global;
use std::marker::Model;

/// The command `normal`.
#[derive(Drop)]
struct Normal;

impl Model for Normal {
    ghost use Rattle.std.specs.Prelude.{⊤};

    ghost Value = { ⊤ };

    ghost view = { λ _. tt };
}

/// The normal form of the message that a text of hexadecimal digits spells, as such digits, and LF.
fn print_normal(alloc: Global, text: &[u8]) -> Result<Vec<u8>, PrintError<NormalRefusal>>
    ensures printed { IfOk result (λ printed. PrintsNormal tt text.now printed.items) }
    ensures accepted { IfOk result (λ _. normal_refusal tt text.now ≡ None) }
    ensures refused { IfErr result (RefusesFor (normal_refusal tt text.now)) }
{
    let form = read_normal_form(alloc, &mut TextReader::new(alloc), text)?;
    let printed = hex_line(alloc, &form)?;
    Ok(printed)
}

impl TextCommand for Normal {
    type Refusal = NormalRefusal;

    ghost reads = { λ command. true };

    ghost limit = { normal_limit };

    ghost refusal = { normal_refusal };

    ghost prints = { PrintsNormal };

    ghost refusal_note = { normal_note };

    fn reads_text(&self) -> bool {
        true
    }

    fn text_limit(&self) -> usize {
        MESSAGE_TEXT_LIMIT
    }

    fn put<K: Sink>(
        &self,
        alloc: Global,
        text: &[u8],
        sink: &mut K,
    ) -> Result<(), PutError<NormalRefusal>> {
        put_printed(print_normal(alloc, text), sink)
    }

    fn notice(refused: NormalRefusal) -> Notice {
        refused.notice()
    }
}

/// The command that the words are: `normal` alone, and no others.
fn command_of(args: &Args) -> Option<Normal>
    ensures { result ≡ command_of args.now }
{
    let (Some(word), None) = (args.get(0), args.get(1)) else {
        return None;
    };
    if word == "normal" { Some(Normal) } else { None }
}

/// Answers `normal`: writes the normal form of the message that the source has in hexadecimal digits, a message with its records in
/// canonical order and alike ones once, as answers whose names are written once (RFC 4034 section 6, RFC 1035 section 4.1.4); or says
/// on `notes` why nothing is printed. All memory is taken before the first octet is written.
pub fn run_normal<S: Source, K: Sink, N: Sink>(
    alloc: Global,
    args: &Args,
    source: &mut S,
    sink: &mut K,
    notes: &mut N,
) -> NormalStatus
    ensures { Ran S.Source K.Sink N.Sink normal_rules (note_of normal_note) (command_of args.now) source.old source.new sink.old sink.new notes.old notes.new (outcome_of result) }
{
    let outcome = run_command(alloc, &command_of(args), source, sink, notes);
    NormalStatus::from(outcome)
}
