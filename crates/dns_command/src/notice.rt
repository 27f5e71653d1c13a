//! What is noted of a command that has not printed all.

ghost use Rattle.std.specs.Prelude.{◌≡◌, Some};
ghost use Rattle.dns_text.specs.Outside.{HasCause, Puts};
ghost use Rattle.dns_command.specs.Notes.{note_line, notice_line, notice_text, notice_words, spaced};

use dns_text::{Failed, Sink, put_all};
use itoa::Buffer;
use std::fmt;

/// Why not all was printed.
#[derive(Clone, Copy, Debug)]
pub enum Notice {
    /// The words are no command.
    Usage,
    /// The text has more octets than the limit.
    TooLong,
    /// The text of a message is not pairs of hexadecimal digits.
    BadHex,
    /// A message has fewer than 12 octets. Messages count from 0.
    Short {
        message: u32,
    },
    /// This item is the first of a message that can't be read. Sections and items count from 0.
    Item {
        message: u32,
        section: u8,
        index: u16,
    },
    /// What a command says of a text that it refuses for a reason of its own.
    Own(&'static str),
    /// The source failed.
    ReadFault,
    /// The sink failed.
    WriteFault,
    /// Memory ran out.
    Memory,
}

impl Notice {
    /// What is said of it, before numbers.
    fn words(&self) -> &'static str
        ensures { result.now ≡ notice_words self.now }
    {
        match self {
            Notice::Usage => "usage",
            Notice::TooLong => "too long",
            Notice::BadHex => "bad hex",
            Notice::Short { .. } => "short",
            Notice::Item { .. } => "item",
            Notice::Own(words) => words,
            Notice::ReadFault => "read fault",
            Notice::WriteFault => "write fault",
            Notice::Memory => "out of memory",
        }
    }
}

/// The words, and the numbers of a message, a section and an item after them: `item 0 1 2`.
impl fmt::Display for Notice {
    ghost output = { λ notice. Some (notice_text notice) };

    fn fmt<W: fmt::Write>(&self, f: &mut fmt::Formatter<W>) -> fmt::Result {
        match self {
            Notice::Short { message } => write!(f, "{} {}", self.words(), message),
            Notice::Item {
                message,
                section,
                index,
            } => write!(f, "{} {} {} {}", self.words(), message, section, index),
            _ => f.write_str(self.words()),
        }
    }
}

/// Writes a space, and the number in decimal digits.
fn put_number<K: Sink>(sink: &mut K, number: u32) -> Result<(), Failed>
    ensures puts { Puts (K.written sink.old) (K.written sink.new) (spaced number) result }
    ensures cause { HasCause (K.faults sink.old) (K.faults sink.new) result }
{
    let mut buffer = Buffer::new();
    put_all(sink, b" ")?;
    put_all(sink, buffer.format(number).as_bytes())
}

/// Writes a word, the numbers in decimal digits after it, and LF. It takes no memory.
fn put_line<K: Sink>(sink: &mut K, word: &[u8], numbers: &[u32]) -> Result<(), Failed>
    ensures puts { Puts (K.written sink.old) (K.written sink.new) (note_line word.now numbers.now) result }
    ensures cause { HasCause (K.faults sink.old) (K.faults sink.new) result }
{
    put_all(sink, word)?;
    for number in numbers {
        put_number(sink, *number)?;
    }
    put_all(sink, b"\n")
}

/// Writes what a notice shows, and LF. It takes no memory, so that it can say that there is none.
pub fn put_notice<N: Sink>(notice: Notice, notes: &mut N) -> Result<(), Failed>
    ensures puts { Puts (N.written notes.old) (N.written notes.new) (notice_line notice) result }
    ensures cause { HasCause (N.faults notes.old) (N.faults notes.new) result }
{
    let words = notice.words().as_bytes();
    match notice {
        Notice::Short { message } => put_line(notes, words, &[message]),
        Notice::Item {
            message,
            section,
            index,
        } => put_line(
            notes,
            words,
            &[message, u32::from(section), u32::from(index)],
        ),
        _ => put_line(notes, words, &[]),
    }
}
