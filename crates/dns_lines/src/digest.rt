//! The digest of a message's records.

ghost use Rattle.std.specs.Prelude.{◌≡◌, None, IfErr, OnOk, OnErr};
ghost use Rattle.dns_command.specs.Outcomes.{RefusesFor};
ghost use Rattle.dns_lines.specs.Answers.{AddsPrinted, digest_refusal};

use crate::command::LineCommand;
use dns_command::{OneMessage, PrintError, TextReader};
use dns_normal::NormalRefusal;
use dns_text::push_hex_line;
use dns_zone::digest_of;
use std::alloc::Global;

/// Adds the SHA-384 digest of the canonical octets of a message's records other than OPT, in canonical order and alike ones once (RFC 4034
/// section 6), in hexadecimal digits, and LF to answers.
pub(crate) fn add_digest(
    alloc: Global,
    reader: &mut TextReader,
    line: &[u8],
    answers: &mut Vec<u8>,
) -> Result<(), PrintError<NormalRefusal>>
    ensures added { OnOk result (AddsPrinted LineCommand.Digest line.now answers.old.items answers.new.items) }
    ensures accepted { OnOk result (digest_refusal line.now ≡ None) }
    ensures refused { IfErr result (RefusesFor (digest_refusal line.now)) }
    ensures unchanged { OnErr result (answers.new.items ≡ answers.old.items) }
{
    let forms = reader.read_forms(alloc, line, OneMessage)?;
    let order = forms.collapsed(alloc)?;
    push_hex_line(&digest_of(&order), answers)?;
    Ok(())
}
