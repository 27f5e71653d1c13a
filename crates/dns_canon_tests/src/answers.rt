//! A run over devices in memory, from plain values to plain values.

use dns_canon::{Status, Words, run};
use dns_text::{TextSink, TextSource};
use std::alloc::{AllocError, Global};

/// A call that no device reaches.
pub(crate) const NEVER: u64 = 1000;

/// What the source, the sink and the notes do.
#[derive(Clone, Copy)]
pub(crate) struct Devices {
    /// The most octets that each takes or gives at a call, at least 1.
    pub(crate) pieces: [usize; 3],
    /// The call at which each fails.
    pub(crate) failing: [u64; 3],
    /// How many octets the sink holds, at most 200.
    pub(crate) room: usize,
}

impl Devices {
    /// Devices with pieces of at most these sizes, which fail at these calls.
    pub(crate) fn failing_at(pieces: [usize; 3], failing: [u64; 3]) -> Devices {
        Devices {
            pieces,
            failing,
            room: 200,
        }
    }
}

/// The words of a command line, with a space between two.
pub(crate) fn words_of(alloc: Global, line: &str) -> Result<Words, AllocError> {
    let mut words = Vec::new(alloc);
    for word in line.split(' ') {
        words.push(String::from_str(alloc, word)?)?;
    }
    Ok(Words::new(words))
}

/// The status of a run over devices in memory.
fn status_over(
    alloc: Global,
    line: &str,
    source: &mut TextSource<'_>,
    sink: &mut TextSink<'_>,
    notes: &mut TextSink<'_>,
) -> Status {
    match words_of(alloc, line) {
        Ok(words) => run(alloc, &words, source, sink, notes),
        Err(_) => Status::Memory,
    }
}

/// A source of these octets.
fn source_of<'a>(text: &'a str, piece: usize, failing: &'a [u64]) -> TextSource<'a> {
    TextSource::new(text.as_bytes(), piece.max(1), failing)
}

/// A sink into these octets.
fn sink_into<'b>(room: &'b mut [u8], piece: usize, failing: &'b [u64]) -> TextSink<'b> {
    TextSink::new(room, piece.max(1), failing)
}

/// Whether this is what a sink has taken, flushed or not.
fn holds_text(sink: &TextSink<'_>, wanted: &[u8], flushed: bool) -> bool {
    sink.written() == wanted && sink.flushed() == flushed
}

/// How a run is to end, what is to be written, and the line on the notes.
pub(crate) type Wanted<'a> = (Status, &'a [u8], &'a [u8]);

/// Whether the words for a text end as wanted over these devices, and the sink is flushed if all is done.
pub(crate) fn answers(
    alloc: Global,
    line: &str,
    text: &str,
    devices: Devices,
    (wanted, output, note): Wanted<'_>,
) -> bool {
    let [source_piece, sink_piece, note_piece] = devices.pieces;
    let [failing_read, failing_write, failing_note] = devices.failing;
    let (reads, writes, notes) = ([failing_read], [failing_write], [failing_note]);
    let (mut room, mut line_room) = ([0u8; 200], [0u8; 20]);
    let mut source = source_of(text, source_piece, &reads);
    let mut sink = sink_into(&mut room[..devices.room.min(200)], sink_piece, &writes);
    let mut notes = sink_into(&mut line_room, note_piece, &notes);
    let status = status_over(alloc, line, &mut source, &mut sink, &mut notes);
    status == wanted
        && holds_text(&sink, output, wanted == Status::Done)
        && holds_text(&notes, note, false)
}
