//! The commands `hash`, `covers`, `signed` and `keytags`.

ghost use Rattle.std.specs.Prelude.{◌≡◌, ◌≤◌, None, IfOk, IfErr, length};
ghost use Rattle.dns_wire.specs.Names.{name_labels};
ghost use Rattle.dns_command.specs.Endings.{Ran};
ghost use Rattle.dns_command.specs.Outcomes.{RefusesFor, note_of};
ghost use Rattle.dns_denial.specs.Hashes.{hash_line};
ghost use Rattle.dns_denial.specs.Texts.{PrintsDenial, denial_limit, denial_note, denial_reads, denial_refusal, denial_rules, outcome_of};
ghost use Rattle.dns_denial.specs.Words.{command_of};

use crate::base32::base32hex;
use crate::message::print_message;
use crate::nsec3::nsec3_hash;
use crate::refusal::DenialRefusal;
use crate::status::DenialStatus;
use crate::words::{DenialCommand, command_of};
use dns_command::{Notice, PrintError, PutError, TextCommand, put_printed, run_command};
use dns_name::Name;
use dns_text::{Args, MESSAGE_TEXT_LIMIT, Sink, Source};
use std::alloc::{AllocError, Global};

/// The line of the hash of a name.
fn hash_line(
    alloc: Global,
    name: Name<'_>,
    salt: &[u8],
    iterations: u16,
) -> Result<Vec<u8>, AllocError>
    requires { length salt.now ≤ 255 }
    ensures { IfOk result (λ line. line.items ≡ hash_line (name_labels name.entry.slice.now) salt.now iterations) }
{
    let text = base32hex(&nsec3_hash(name, salt, iterations));
    let mut line = Vec::from_slice(alloc, &text)?;
    line.push(b'\n')?;
    Ok(line)
}

impl DenialCommand {
    /// The text that is printed for a text.
    fn print(&self, alloc: Global, text: &[u8]) -> Result<Vec<u8>, PrintError<DenialRefusal>>
        ensures printed { IfOk result (λ printed. PrintsDenial self.now text.now printed.items) }
        ensures accepted { IfOk result (λ _. denial_refusal self.now text.now ≡ None) }
        ensures refused { IfErr result (RefusesFor (denial_refusal self.now text.now)) }
    {
        match self {
            DenialCommand::Hash {
                name,
                salt,
                iterations,
            } => {
                let line = hash_line(alloc, name.as_name(), salt.as_slice(), *iterations)?;
                Ok(line)
            }
            DenialCommand::Covers { .. } | DenialCommand::Signed { .. } | DenialCommand::KeyTags =>
                print_message(alloc, self, text),
        }
    }
}

impl TextCommand for DenialCommand {
    type Refusal = DenialRefusal;

    ghost reads = { denial_reads };

    ghost limit = { denial_limit };

    ghost refusal = { denial_refusal };

    ghost prints = { PrintsDenial };

    ghost refusal_note = { denial_note };

    fn reads_text(&self) -> bool {
        match self {
            DenialCommand::Hash { .. } => false,
            DenialCommand::Covers { .. } | DenialCommand::Signed { .. } | DenialCommand::KeyTags =>
                true,
        }
    }

    fn text_limit(&self) -> usize {
        MESSAGE_TEXT_LIMIT
    }

    fn put<K: Sink>(
        &self,
        alloc: Global,
        text: &[u8],
        sink: &mut K,
    ) -> Result<(), PutError<DenialRefusal>> {
        put_printed(self.print(alloc, text), sink)
    }

    fn notice(refused: DenialRefusal) -> Notice {
        refused.notice()
    }
}

/// Answers `hash NAME SALT N`, which writes the text of the hash of a name for NSEC3 (RFC 5155 section 5); `covers NAME`, which writes for each
/// NSEC and NSEC3 record in a message what it says of the name (RFC 4034 section 4, RFC 5155 section 7); `signed I`, which writes the octets
/// that signature number I in a message is over, in hexadecimal digits (RFC 4035 section 5.3.2, RFC 4034 section 3.1.8.1); and `keytags`,
/// which writes the tag of each key in a message (RFC 4034 appendix B). The message is the one that the source has in hexadecimal digits; its
/// records come in canonical order and alike ones once (RFC 4034 section 6), signatures too, of which the first has number 0. Or it says on
/// `notes` why nothing is printed. `hash` leaves the source unchanged. All memory is taken before the first octet is written.
pub fn run_denial<S: Source, K: Sink, N: Sink>(
    alloc: Global,
    args: &Args,
    source: &mut S,
    sink: &mut K,
    notes: &mut N,
) -> DenialStatus
    ensures { Ran S.Source K.Sink N.Sink denial_rules (note_of denial_note) (command_of args.now) source.old source.new sink.old sink.new notes.old notes.new (outcome_of result) }
{
    let outcome = run_command(alloc, &command_of(args), source, sink, notes);
    DenialStatus::from(outcome)
}
