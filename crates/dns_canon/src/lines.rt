//! The lines of canonical forms, on their way to a sink.

ghost use Rattle.std.specs.Prelude.{◌≡◌, ◌≤◌, ◌<◌, ◌+◌, ◌-◌, ◌*◌, [], ◌++◌, length, map, take, true, IfOk, OnOk};
ghost use Rattle.dns_text.specs.Hexadecimal.{line, lines};
ghost use Rattle.dns_text.specs.Outside.{HasCause, BecomesFlag, Puts};
ghost use Rattle.dns_message.specs.Order.{octets_of_key};

use dns_message::{CanonicalForm, CanonicalRecord};
use dns_text::{Failed, Sink, put_all, put_hex_line, put_text, zeros};
use std::alloc::{AllocError, Global};
use std::marker::Model;

/// The most canonical octets of a record: an owner of 255, ten octets, and data of 65,535.
const MOST_OCTETS: usize = CanonicalRecord::MAX_SIZE;

/// The most octets of a line: two digits for each of those, and LF.
const MOST_LINE: usize = 2 * MOST_OCTETS + 1;

/// Writes the line of some octets after what comes before a place of the text, if there is room for it.
fn write_line(text: &mut [u8], start: usize, octets: &[u8])
    requires { start + 2 * length octets.now < length text.old }
    ensures { take (start + 2 * length octets.now + 1) text.new ≡ take start text.old ++ line octets.now }
{
    put_hex_line(octets, &mut text[start..start + 2 * octets.len() + 1]);
}

/// Lines that are to be written, one after another. All its memory is taken when it is made.
#[derive(Drop)]
pub(crate) struct LineBuffer {
    /// Room for lines.
    text: Vec<u8>,
    /// How many octets of the text are held.
    filled: usize,
}

impl Model for LineBuffer {
    ghost use Rattle.std.specs.Prelude.{◌≡◌, ◌≤◌, ℕ, List, length, take};
    ghost use Rattle.dns_canon.specs.declared.lines.TheConstants.{MOST_LINE};

    ghost Value = { List ℕ };

    ghost view = { λ b. take b.filled b.text.items };

    ghost invariant = { λ b. (length b.text.items ≡ MOST_LINE) × (b.filled ≤ MOST_LINE) };
}

impl LineBuffer {
    /// No lines.
    pub fn new(alloc: Global) -> Result<LineBuffer, AllocError>
        ensures { IfOk result (λ held. held ≡ []) }
    {
        let text = zeros(alloc, MOST_LINE)?;
        Ok(LineBuffer { text, filled: 0 })
    }

    /// How many octets there is still room for.
    fn room(&self) -> usize
        ensures { result ≡ MOST_LINE - length self.now }
    {
        MOST_LINE - self.filled
    }

    /// The lines that are held.
    fn held(&self) -> &[u8]
        ensures { result.now ≡ self.now }
    {
        &self.text[..self.filled]
    }

    /// Holds the line of some octets more.
    fn hold(&mut self, octets: &[u8])
        requires { length self.old + 2 * length octets.now < MOST_LINE }
        ensures { self.new ≡ self.old ++ line octets.now }
    {
        write_line(&mut self.text, self.filled, octets);
        self.filled += 2 * octets.len() + 1;
    }

    /// Holds no lines any more.
    fn clear(&mut self)
        ensures { self.new ≡ [] }
    {
        self.filled = 0;
    }
}

/// Writes a line for each form, as many lines at once as the buffer holds, and sees to it that all of them arrive.
pub(crate) fn put_forms<K: Sink>(
    sink: &mut K,
    forms: &[CanonicalForm<'_>],
    buffer: &mut LineBuffer,
) -> Result<(), Failed>
    requires { buffer.old ≡ [] }
    ensures puts { Puts (K.written sink.old) (K.written sink.new) (lines (map octets_of_key forms.now)) result }
    ensures flushed { OnOk result (BecomesFlag (K.is_flushed sink.old) (K.is_flushed sink.new) true) }
    ensures cause { HasCause (K.faults sink.old) (K.faults sink.new) result }
{
    for form in forms {
        let octets = form.octets();
        if buffer.room() <= 2 * octets.len() {
            put_all(sink, buffer.held())?;
            buffer.clear();
        }
        buffer.hold(octets);
    }
    put_text(sink, buffer.held())
}
