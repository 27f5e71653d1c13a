//! Sources and sinks in memory, which fail at the calls that they are given.

use crate::holds::all_hold;
use dns_text::{Sink, Source, TextSink, TextSource};

/// Whether a source of three octets a read fails at its second and fourth reads, and loses nothing.
fn source_fails_where_set() -> bool {
    let mut into = [0u8; 4];
    let mut source = TextSource::new(b"abcdef", 3, &[1, 3]);
    let first = matches!(source.read(&mut into), Ok(3)) && source.read(&mut into).is_err();
    let second = matches!(source.read(&mut into), Ok(3)) && into == *b"def\0";
    let last = source.read(&mut into).is_err() && matches!(source.read(&mut into), Ok(0));
    first && second && last
}

/// Whether a sink of three octets a write keeps what it took if a flush fails, and then fills up.
fn sink_keeps_what_it_took() -> bool {
    let mut buffer = [0u8; 4];
    let mut sink = TextSink::new(&mut buffer, 3, &[1, 5]);
    let first = matches!(sink.write(b"abcdef"), Ok(3)) && sink.flush().is_err();
    let second = !sink.flushed() && matches!(sink.write(b"def"), Ok(1));
    first && second && sink.written() == b"abcd".as_slice()
}

/// Whether a full sink refuses octets but not nothing.
fn full_sink_fails() -> bool {
    let mut buffer = [0u8; 4];
    let mut sink = TextSink::new(&mut buffer, 8, &[]);
    let is_full = matches!(sink.write(b"abcdef"), Ok(4)) && sink.write(b"ef").is_err();
    is_full && matches!(sink.write(b""), Ok(0)) && sink.written() == b"abcd".as_slice()
}

/// Whether a sink is flushed at the first flush that does not fail.
fn flush_fails_once() -> bool {
    let mut buffer = [0u8; 4];
    let mut sink = TextSink::new(&mut buffer, 8, &[1]);
    let is_taken = matches!(sink.write(b"abcd"), Ok(4));
    let is_flushed = sink.flush().is_err() && sink.flush().is_ok();
    is_taken && is_flushed && sink.flushed()
}

#[test]
fn devices_fail_where_they_are_set(rt: HostRuntime) {
    all_hold(
        &rt,
        &[
            ("a source", source_fails_where_set()),
            ("a sink", sink_keeps_what_it_took()),
            ("a full sink", full_sink_fails()),
            ("a flush", flush_fails_once()),
        ],
    );
}
