//! Readers and writers of std as sources and sinks, where a call fails in mid-stream.
//!
//! No contract of std's says that a call was passed on, or what is in a buffer if nothing was read:
//! for the adapters the tests show it, with a reader and writer that fails.

use crate::holds::all_hold;
use dns_text::{ReadSource, Sink, Source, WriteSink};
use std::io::{self, ErrorKind, Read, Write};

/// Gives and takes one octet at a call, and fails at the calls whose numbers, from 0, it was given.
#[derive(Drop)]
struct Halting<'a> {
    failing: &'a [u64],
    calls: u64,
    flushes: u64,
}

impl Halting<'_> {
    /// Counts a call, and answers whether it fails.
    fn is_failing(&mut self) -> bool {
        let call = self.calls;
        self.calls = self.calls.saturating_add(1);
        self.failing.contains(&call)
    }
}

impl Read for Halting<'_> {
    fn read(&mut self, buf: &mut [u8]) -> io::Result<usize> {
        if self.is_failing() {
            return Err(io::Error::from(ErrorKind::Interrupted));
        }
        match buf.first_mut() {
            Some(first) => {
                *first = b'x';
                Ok(1)
            }
            None => Ok(0),
        }
    }
}

impl Write for Halting<'_> {
    fn write(&mut self, buf: &[u8]) -> io::Result<usize> {
        if self.is_failing() {
            return Err(io::Error::from(ErrorKind::Interrupted));
        }
        Ok(buf.len().min(1))
    }

    fn flush(&mut self) -> io::Result<()> {
        if self.is_failing() {
            return Err(io::Error::from(ErrorKind::Interrupted));
        }
        self.flushes = self.flushes.saturating_add(1);
        Ok(())
    }
}

/// A reader and writer that fails at these calls.
fn failing_at(failing: &[u64]) -> Halting<'_> {
    Halting {
        failing,
        calls: 0,
        flushes: 0,
    }
}

/// Whether a reader's octets come, and then its end.
fn reader_is_passed_on() -> bool {
    let mut into = [0u8; 2];
    let mut source = ReadSource::new(b"abc".as_slice());
    let first = matches!(source.read(&mut into), Ok(2)) && into == *b"ab";
    let second = matches!(source.read(&mut into), Ok(1)) && into == *b"cb";
    first && second && matches!(source.read(&mut into), Ok(0))
}

/// Whether octets and a flush reach a writer.
fn writer_is_passed_on() -> bool {
    let mut sink = WriteSink::new(io::sink());
    matches!(sink.write(b"abc"), Ok(3)) && sink.flush().is_ok()
}

/// Whether a piece of 65,537 octets, more than a pipe holds, reaches a writer whole.
fn long_piece_is_passed_on() -> bool {
    let piece = [0u8; 65_537];
    matches!(WriteSink::new(io::sink()).write(&piece), Ok(65_537))
}

/// Whether a reader that fails at its first and third calls is called three times, and its one octet comes.
fn reader_fails() -> bool {
    let mut into = *b"...";
    let mut reader = failing_at(&[0, 2]);
    let mut source = ReadSource::new(&mut reader);
    let first = source.read(&mut into).is_err() && into == *b"...";
    let second = matches!(source.read(&mut into), Ok(1)) && into == *b"x..";
    let third = source.read(&mut into).is_err();
    first && second && third && reader.calls == 3
}

/// Whether a writer that fails at its second and third calls takes one octet, and is not flushed.
fn writer_fails() -> bool {
    let mut writer = failing_at(&[1, 2]);
    let mut sink = WriteSink::new(&mut writer);
    let first = matches!(sink.write(b"ab"), Ok(1));
    let second = sink.write(b"b").is_err();
    let third = sink.flush().is_err();
    first && second && third && writer.calls == 3 && writer.flushes == 0
}

/// Whether a writer that fails at its second call is flushed at its first, and takes nothing at its third.
fn flush_fails() -> bool {
    let mut writer = failing_at(&[1]);
    let mut sink = WriteSink::new(&mut writer);
    let first = sink.flush().is_ok();
    let second = sink.flush().is_err();
    let third = matches!(sink.write(b""), Ok(0));
    first && second && third && writer.calls == 3 && writer.flushes == 1
}

/// Whether a read into no room is passed on, and is no fault.
fn reads_nothing() -> bool {
    let mut reader = failing_at(&[]);
    let mut source = ReadSource::new(&mut reader);
    matches!(source.read(&mut []), Ok(0)) && reader.calls == 1
}

/// Whether a write of nothing is no fault if a write of an octet is one.
fn writes_nothing() -> bool {
    let mut buffer = [0u8; 1];
    let mut sink = WriteSink::new(&mut buffer[..0]);
    matches!(sink.write(b""), Ok(0)) && sink.write(b"a").is_err()
}

#[test]
fn adapters_pass_calls_and_errors_on(rt: HostRuntime) {
    all_hold(
        &rt,
        &[
            ("a reader", reader_is_passed_on()),
            ("a writer", writer_is_passed_on()),
            ("a long piece", long_piece_is_passed_on()),
            ("a reader that fails", reader_fails()),
            ("a write that fails", writer_fails()),
            ("a flush that fails", flush_fails()),
            ("a read of nothing", reads_nothing()),
            ("a write of nothing", writes_nothing()),
        ],
    );
}
