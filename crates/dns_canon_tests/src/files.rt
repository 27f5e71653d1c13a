//! Files in place of devices in memory.

use crate::answers::words_of;
use crate::replies::{ORDINARY_REPLY, ORDINARY_REPLY_LINES};
use dns_canon::{Status, run};
use dns_text::{NullSink, ReadSource, Sink, WriteSink};
use std::fs::File;
use std::io::Read;
use std::{fs, io};

/// Writes the ordinary reply to two files, so that a read ends where the first file does.
fn put_reply(rt: &HostRuntime) -> io::Result<()> {
    let (prefix, back) = ORDINARY_REPLY.split_at(33);
    fs::write(rt, "front", prefix)?;
    fs::write(rt, "back", back)
}

/// The status of `canon` for the two files' text, one after the other.
fn status_of_files<K: Sink>(rt: &HostRuntime, sink: &mut K) -> io::Result<Status> {
    let words = words_of(rt.alloc(), "canon")?;
    let text = File::open(rt, "front")?.chain(File::open(rt, "back")?);
    let mut source = ReadSource::new(text);
    Ok(run(rt.alloc(), &words, &mut source, sink, &mut NullSink))
}

/// Whether the lines go to a file.
fn writes_a_file(rt: &HostRuntime) -> io::Result<bool> {
    let mut sink = WriteSink::new(File::create(rt, "lines")?);
    let status = status_of_files(rt, &mut sink)?;
    let lines = fs::read(rt, "lines")?;
    Ok(status == Status::Done && lines.as_slice() == ORDINARY_REPLY_LINES.as_bytes())
}

/// Whether a slice of ten octets takes ten of the first piece, and then none, which is a write fault.
fn fills_ten_octets(rt: &HostRuntime) -> io::Result<bool> {
    let mut buffer = [0u8; 10];
    let mut sink = WriteSink::new(buffer.as_mut_slice());
    let status = status_of_files(rt, &mut sink)?;
    Ok(status == Status::WriteFault && &buffer[..] == &ORDINARY_REPLY_LINES.as_bytes()[..10])
}

/// Removes the files.
fn remove_files(rt: &HostRuntime) -> io::Result<()> {
    for name in ["front", "back", "lines"] {
        fs::remove_file(rt, name)?;
    }
    Ok(())
}

#[test]
fn reads_and_writes_files(rt: HostRuntime) {
    assert!(rt; put_reply(&rt).is_ok(), "two files");
    assert!(rt; matches!(writes_a_file(&rt), Ok(true)), "a file of lines");
    assert!(rt; matches!(fills_ten_octets(&rt), Ok(true)), "ten octets");
    assert!(rt; remove_files(&rt).is_ok(), "no files");
}
