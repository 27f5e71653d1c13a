//! The records of a message, a line each.

ghost use Rattle.std.specs.Prelude.{◌≡◌, ◌++◌, None, IfErr, OnOk, OnErr};
ghost use Rattle.dns_command.specs.Outcomes.{RefusesFor};
ghost use Rattle.dns_lines.specs.Answers.{AddsPrinted, listed_refusal};
ghost use Rattle.dns_lines.specs.Records.{has_line, record_lines, record_part};

use crate::command::LineCommand;
use dns_command::{OneMessage, PrintError, TextReader};
use dns_message::CanonicalForm;
use dns_name::RevNameBuf;
use dns_normal::NormalRefusal;
use dns_record::Formats;
use dns_record_lines::push_record_line;
use dns_zone::is_of_zone;
use std::alloc::{AllocError, Global};

/// Whether a record has a line: each has one, or where an apex is given those of its zone.
fn has_line(form: &CanonicalForm<'_>, apex: &Option<RevNameBuf>) -> bool
    ensures { result ≡ has_line apex.now form.now }
{
    match apex {
        Some(apex) => is_of_zone(form, apex),
        None => true,
    }
}

/// Adds the line of a record to a text, if it has one.
fn push_record_part(
    form: &CanonicalForm<'_>,
    apex: &Option<RevNameBuf>,
    text: &mut Vec<u8>,
) -> Result<(), AllocError>
    ensures { OnOk result (text.new.items ≡ text.old.items ++ record_part apex.now form.now) }
{
    if has_line(form, apex) {
        push_record_line(form, text)
    } else {
        Ok(())
    }
}

/// Adds the lines of records to a text.
fn push_record_lines(
    forms: &[CanonicalForm<'_>],
    apex: &Option<RevNameBuf>,
    text: &mut Vec<u8>,
) -> Result<(), AllocError>
    ensures { OnOk result (text.new.items ≡ text.old.items ++ record_lines apex.now forms.now) }
{
    for form in forms {
        push_record_part(form, apex, text)?;
    }
    Ok(())
}

/// Adds a line for each record of a message to answers, or where an apex is given for each of its zone: lines that are in the order of the
/// records (RFC 4034 section 6). Names are in lowercase in the data of each type that RFC 4034 section 6.2 lists.
pub(crate) fn add_records(
    alloc: Global,
    reader: &mut TextReader,
    line: &[u8],
    apex: &Option<RevNameBuf>,
    answers: &mut Vec<u8>,
) -> Result<(), PrintError<NormalRefusal>>
    ensures added { OnOk result (AddsPrinted (LineCommand.Records apex.now) line.now answers.old.items answers.new.items) }
    ensures accepted { OnOk result (listed_refusal line.now ≡ None) }
    ensures refused { IfErr result (RefusesFor (listed_refusal line.now)) }
    ensures unchanged { OnErr result (answers.new.items ≡ answers.old.items) }
{
    let forms = reader.read_forms_by(alloc, line, OneMessage, Formats::Listed)?;
    let views = forms.views(alloc)?;
    let mut lines = Vec::new(alloc);
    push_record_lines(&views, apex, &mut lines)?;
    answers.extend_from_slice(&lines)?;
    Ok(())
}
