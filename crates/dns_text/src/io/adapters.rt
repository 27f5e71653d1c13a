//! The trusted edge: std's readers and writers as a source and a sink.

ghost use Rattle.std.specs.Prelude.{◌≡◌, false, Some, Ok, IsErr, OnErr, IfOk};
ghost use Rattle.dns_text.specs.Outside.{HasCause};

use crate::io::traits::{Failed, Sink, Source, count_fault};
use std::io::{self, Read, Write};

/// What std answered, where an error is counted as a fault.
fn counted<T>(answer: io::Result<T>, faults: &mut u64) -> Result<T, Failed>
    ensures passed { IfOk answer (λ value. result ≡ Ok value) }
    ensures reported { OnErr answer (IsErr result) }
    ensures cause { HasCause faults.old faults.new result }
{
    match answer {
        Ok(value) => Ok(value),
        Err(_) => Err(count_fault(faults)),
    }
}

/// A reader of std. Each of its errors is a fault, one of the kind `Interrupted` too: no call is tried
/// again. std leaves open what it puts into a buffer after the octets that it read, and at an error.
#[derive(Drop)]
pub struct ReadSource<R> {
    reader: R,
    faults: u64,
}

impl<R: Read> ReadSource<R> {
    /// Reads from this reader, with no fault so far.
    pub fn new(reader: R) -> Self
        ensures left { ⟦<ReadSource<R> as Source>⟧.left result ≡ R.remaining reader }
        ensures faults { ⟦<ReadSource<R> as Source>⟧.faults result ≡ 0 }
    {
        ReadSource { reader, faults: 0 }
    }
}

impl<R: Read> Source for ReadSource<R> {
    ghost left = { λ s. R.remaining s.reader };

    ghost faults = { λ s. s.faults };

    fn read(&mut self, into: &mut [u8]) -> Result<usize, Failed> {
        counted(self.reader.read(into), &mut self.faults)
    }
}

/// A writer of std. Each of its errors is a fault, one of the kind `Interrupted` too: no call is tried
/// again. It is a fault as well if the writer takes no octet though it was given some.
#[derive(Drop)]
pub struct WriteSink<W> {
    writer: W,
    is_flushed: bool,
    faults: u64,
}

impl<W: Write> WriteSink<W> {
    /// Writes to this writer, with nothing flushed and no fault so far.
    pub fn new(writer: W) -> Self
        ensures written { ⟦<WriteSink<W> as Sink>⟧.written result ≡ W.contents writer }
        ensures flushed { ⟦<WriteSink<W> as Sink>⟧.is_flushed result ≡ Some false }
        ensures faults { ⟦<WriteSink<W> as Sink>⟧.faults result ≡ 0 }
    {
        WriteSink {
            writer,
            is_flushed: false,
            faults: 0,
        }
    }
}

impl<W: Write> Sink for WriteSink<W> {
    ghost written = { λ s. W.contents s.writer };

    ghost is_flushed = { λ s. Some s.is_flushed };

    ghost faults = { λ s. s.faults };

    fn write(&mut self, piece: &[u8]) -> Result<usize, Failed> {
        let count = counted(self.writer.write(piece), &mut self.faults)?;
        if count == 0 && !piece.is_empty() {
            return Err(count_fault(&mut self.faults));
        }
        if count > 0 {
            self.is_flushed = false;
        }
        Ok(count)
    }

    fn flush(&mut self) -> Result<(), Failed> {
        counted(self.writer.flush(), &mut self.faults)?;
        self.is_flushed = true;
        Ok(())
    }
}
