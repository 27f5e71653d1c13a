//! The command `zone APEX`.

ghost use Rattle.std.specs.Prelude.{◌≡◌, ◌≤◌, true, None, IfOk, IfErr, length};
ghost use Rattle.dns_command.specs.Endings.{Ran};
ghost use Rattle.dns_command.specs.Outcomes.{RefusesFor, note_of};
ghost use Rattle.dns_zone.specs.Texts.{PrintsZone, apex_of, outcome_of, zone_limit, zone_note, zone_refusal, zone_rules};

use crate::digest::{digest_text, zone_digest};
use crate::messages::{messages_in, slices_of};
use crate::refusal::{ZONE_TEXT_LIMIT, ZoneRefusal};
use crate::status::ZoneStatus;
use dns_command::{Notice, PrintError, PutError, TextCommand, put_printed, run_command};
use dns_name::RevNameBuf;
use dns_text::{Args, Sink, Source};
use std::alloc::Global;
use std::marker::Model;

/// The digest of the zone of an apex.
#[derive(Drop)]
struct Zone {
    apex: RevNameBuf,
}

impl Model for Zone {
    ghost use Rattle.dns_wire.specs.Octets.{Labels};

    ghost Value = { Labels };

    ghost view = { λ z. z.apex };
}

impl Zone {
    /// The text that is printed for the messages in a text.
    fn print(&self, alloc: Global, text: &[u8]) -> Result<Vec<u8>, PrintError<ZoneRefusal>>
        requires { length text.now ≤ ZONE_TEXT_LIMIT }
        ensures printed { IfOk result (λ printed. PrintsZone self.now text.now printed.items) }
        ensures accepted { IfOk result (λ _. zone_refusal self.now text.now ≡ None) }
        ensures refused { IfErr result (RefusesFor (zone_refusal self.now text.now)) }
    {
        let messages = messages_in(alloc, text)?;
        let slices = slices_of(alloc, &messages)?;
        let digest = zone_digest(alloc, &slices, &self.apex)?;
        let printed = digest_text(alloc, &digest)?;
        Ok(printed)
    }
}

impl TextCommand for Zone {
    type Refusal = ZoneRefusal;

    ghost reads = { λ command. true };

    ghost limit = { zone_limit };

    ghost refusal = { zone_refusal };

    ghost prints = { PrintsZone };

    ghost refusal_note = { zone_note };

    fn reads_text(&self) -> bool {
        true
    }

    fn text_limit(&self) -> usize {
        ZONE_TEXT_LIMIT
    }

    fn put<K: Sink>(
        &self,
        alloc: Global,
        text: &[u8],
        sink: &mut K,
    ) -> Result<(), PutError<ZoneRefusal>> {
        put_printed(self.print(alloc, text), sink)
    }

    fn notice(refused: ZoneRefusal) -> Notice {
        refused.notice()
    }
}

/// The zone that the words `zone APEX` name; `None` if they are other words, or APEX is not the text of a name.
fn zone_of(args: &Args) -> Option<Zone>
    ensures { result ≡ apex_of args.now }
{
    let (Some(word), Some(text), None) = (args.get(0), args.get(1), args.get(2)) else {
        return None;
    };
    if word != "zone" {
        return None;
    }
    match RevNameBuf::parse_str(text.as_bytes()) {
        Ok(apex) => Some(Zone { apex }),
        Err(_) => None,
    }
}

/// Answers `zone APEX`: writes how many members the zone's digest is taken of, how many octets they have, and the digest (RFC 8976, the
/// SIMPLE scheme with SHA-384), for the messages that the source has, a line of hexadecimal digits each; or says on `notes` why nothing
/// is printed. All memory is taken before the first octet is written.
pub fn run_zone<S: Source, K: Sink, N: Sink>(
    alloc: Global,
    args: &Args,
    source: &mut S,
    sink: &mut K,
    notes: &mut N,
) -> ZoneStatus
    ensures { Ran S.Source K.Sink N.Sink zone_rules (note_of zone_note) (apex_of args.now) source.old source.new sink.old sink.new notes.old notes.new (outcome_of result) }
{
    let outcome = run_command(alloc, &zone_of(args), source, sink, notes);
    ZoneStatus::from(outcome)
}
