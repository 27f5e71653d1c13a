//! Reading a record back from its line.

ghost use Rattle.std.specs.Prelude.{◌≡◌, ◌≢◌, ◌∷◌, [], true, IfOk, MatchOption};
ghost use Rattle.dns_message.specs.Order.{SortKey};
ghost use Rattle.dns_record.specs.Types.{opt_number};
ghost use Rattle.dns_record_lines.specs.RecordLines.{IsLineOf};

use crate::line_fields::{LineNumbers, read_field, read_numbers, split_fields};
use crate::record_line::push_record_line;
use dns_message::{CanonicalForm, CanonicalForms, owner_of_key};
use dns_record::{MAX_DATA_SIZE, RType};
use std::alloc::{AllocError, Global};

/// Room for the octets of a line: the owner's key, and the data.
#[derive(Drop)]
struct LineRoom {
    key: Vec<u8>,
    rdata: Vec<u8>,
}

/// Reads records from their lines, one after another in the same memory.
#[derive(Drop)]
pub struct RecordLineReader {
    forms: CanonicalForms,
    room: LineRoom,
    line: Vec<u8>,
}

/// Puts the record that a line has into the forms, if it has one; octets that are no line of a record may give another or none.
/// `AllocError` is out of memory.
fn push_form(
    line: &[u8],
    room: &mut LineRoom,
    forms: &mut CanonicalForms,
) -> Result<bool, AllocError>
    requires { forms.old ≡ [] }
    ensures { IfOk result (λ is_read. (k : SortKey) → IsLineOf line.now k → (is_read ≡ true) × (forms.new ≡ k ∷ [])) }
{
    let Some(fields) = split_fields(line) else {
        return Ok(false);
    };
    let Some(numbers) = read_numbers(&fields) else {
        return Ok(false);
    };
    if !read_field(fields.key, &mut room.key)? {
        return Ok(false);
    }
    if !read_field(fields.rdata, &mut room.rdata)? || room.rdata.len() > MAX_DATA_SIZE {
        return Ok(false);
    }
    let Some(owner) = owner_of_key(&room.key) else {
        return Ok(false);
    };
    let LineNumbers { rclass, rtype, ttl } = numbers;
    forms.push_parts(&owner, rtype, rclass, ttl, &room.rdata)?;
    Ok(true)
}

/// Whether a record's line, with its LF, is this line. `AllocError` is out of memory.
fn has_line(
    form: &CanonicalForm<'_>,
    line: &[u8],
    written: &mut Vec<u8>,
) -> Result<bool, AllocError>
    ensures is { IfOk result (λ is_line. is_line ≡ true → form.now.rtype ≢ opt_number → IsLineOf line.now form.now) }
    ensures other { IfOk result (λ is_line. IsLineOf line.now form.now → is_line ≡ true) }
{
    written.clear();
    push_record_line(form, written)?;
    Ok(&written[..written.len() - 1] == line)
}

impl RecordLineReader {
    /// A reader that has read no line. No memory is taken.
    pub fn new(alloc: Global) -> RecordLineReader {
        RecordLineReader {
            forms: CanonicalForms::new(alloc),
            room: LineRoom {
                key: Vec::new(alloc),
                rdata: Vec::new(alloc),
            },
            line: Vec::new(alloc),
        }
    }

    /// Reads the record of a line, which has no LF. `None` comes exactly if the line is that of no record of another type than OPT: the
    /// line for a record that is read is written again, and has to be the same. `AllocError` is out of memory.
    pub fn read(&mut self, line: &[u8]) -> Result<Option<CanonicalForm<'_>>, AllocError>
        ensures { IfOk result (λ found. MatchOption found ((k : SortKey) → ¬ IsLineOf line.now k) (IsLineOf line.now)) }
    {
        let RecordLineReader {
            forms,
            room,
            line: written,
        } = self;
        forms.clear();
        if !push_form(line, room, forms)? {
            return Ok(None);
        }
        let Some(form) = forms.first() else {
            return Ok(None);
        };
        if form.rtype() == RType::OPT || !has_line(&form, line, written)? {
            return Ok(None);
        }
        Ok(Some(form))
    }
}
