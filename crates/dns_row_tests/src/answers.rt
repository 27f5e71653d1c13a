//! What a run answers.

use crate::fields::words_of;
use crate::libraries::{Library, ending_of};
use dns_text::{TextSink, TextSource};
use std::alloc::{AllocError, Global};
use std::io;

/// Room for the output of a run.
const ROOM: usize = 300_000;

/// How many octets of a long line are printed.
const START: usize = 80;

/// How many octets the source gives at a call, and at which call the source, the sink and the notes fail.
#[derive(Clone, Copy)]
pub(crate) struct Faults {
    pub(crate) piece: usize,
    pub(crate) source: u64,
    pub(crate) sink: u64,
    pub(crate) notes: u64,
}

/// Devices of which none fails, with reads of 1,000 octets.
pub(crate) const SOUND: Faults = Faults {
    piece: 1000,
    source: u64::MAX,
    sink: u64::MAX,
    notes: u64::MAX,
};

/// How a run ended, and what it wrote.
#[derive(Drop)]
pub(crate) struct Answer {
    pub(crate) status: String,
    pub(crate) is_flushed: bool,
    pub(crate) notes: Vec<u8>,
    pub(crate) output: Vec<u8>,
}

/// The answer that ended so and wrote this.
fn answer_of(
    alloc: Global,
    status: String,
    sink: &TextSink<'_>,
    notes: &TextSink<'_>,
) -> Result<Answer, AllocError> {
    let output = Vec::from_slice(alloc, sink.written())?;
    Ok(Answer {
        status,
        is_flushed: sink.flushed(),
        notes: Vec::from_slice(alloc, notes.written())?,
        output,
    })
}

/// The answer of a library to words for a text, over devices in memory with these faults and this room. The sink takes 40 octets at a
/// call, the notes take 7.
fn answer_in(
    alloc: Global,
    (library, words): (Library, Vec<String>),
    text: &[u8],
    faults: Faults,
    room: &mut [u8],
) -> Result<Answer, AllocError> {
    let mut line = [0u8; 100];
    let (reads, writes, notes_calls) = ([faults.source], [faults.sink], [faults.notes]);
    let mut source = TextSource::new(text, faults.piece.max(1), &reads);
    let mut sink = TextSink::new(room, 40, &writes);
    let mut notes = TextSink::new(&mut line, 7, &notes_calls);
    let status = ending_of(alloc, library, words, &mut source, &mut sink, &mut notes)?;
    answer_of(alloc, status, &sink, &notes)
}

/// The answer of a library to a field of words for a text, over devices in memory with these faults.
pub(crate) fn answer_over(
    alloc: Global,
    library: Library,
    words: &str,
    text: &[u8],
    faults: Faults,
) -> Result<Answer, AllocError> {
    let mut room = vec![in alloc; 0; ROOM]?;
    let words = words_of(alloc, words)?;
    answer_in(alloc, (library, words), text, faults, &mut room)
}

/// The answer of a library to a field of words for a text, if no device fails.
pub(crate) fn answer_to(
    alloc: Global,
    library: Library,
    words: &str,
    text: &[u8],
) -> Result<Answer, AllocError> {
    answer_over(alloc, library, words, text, SOUND)
}

/// Prints octets as text, and what they lack of a line.
fn show_text(rt: &impl Print, octets: &[u8]) -> io::Result<()> {
    print!(rt; "{}", str::from_utf8(octets).unwrap_or("no text\n"))?;
    if octets.is_empty() || octets.ends_with(b"\n") {
        return Ok(());
    }
    println!(rt; "...")
}

/// Prints the status of an answer and its code, whether its output arrived, and the line on its notes.
pub(crate) fn show_status(rt: &impl Print, name: &str, found: &Answer) -> io::Result<()> {
    let flushed = if found.is_flushed { ", flushed" } else { "" };
    println!(rt; "{name}: {}{flushed}", found.status)?;
    if found.notes.is_empty() {
        return Ok(());
    }
    print!(rt; "note: ")?;
    show_text(rt, &found.notes)
}

/// Prints an answer: its status, and its output.
pub(crate) fn show(rt: &impl Print, name: &str, found: &Answer) -> io::Result<()> {
    show_status(rt, name, found)?;
    show_text(rt, &found.output)
}

/// Prints an answer with long lines: its status, and of each line how many octets it has and the first of them.
pub(crate) fn show_starts(rt: &impl Print, name: &str, found: &Answer) -> io::Result<()> {
    show_status(rt, name, found)?;
    for line in found.output.split(|octet| *octet == b'\n') {
        println!(rt; "octets of the line: {}", line.len())?;
        show_text(rt, &line[..line.len().min(START)])?;
    }
    Ok(())
}
