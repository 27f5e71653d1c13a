//! Records in canonical form.

use crate::message_parser::{ANSWER, parser_after};
use dns_message::{CanonicalRecord, MessageParser};

/// The canonical octets of the first record of the answer, as dnspython 2.3.0 writes them.
const ALIAS: &[u8] =
    b"\x05alias\x07example\x03org\0\0\x05\0\x01\0\0\x01\x2c\0\x14\x06single\x07example\x03org\0";

/// The canonical octets of its second record.
const SINGLE: &[u8] = b"\x06single\x07example\x03org\0\0\x01\0\x01\0\0\x01\x2c\0\x04\xc0\0\x02\x5a";

/// The next item, as a record.
fn next_record<'a>(parser: &mut MessageParser<'a>) -> Option<CanonicalRecord<'a>> {
    match parser.next_item() {
        Some((_, Ok(item))) => CanonicalRecord::of(item),
        _ => None,
    }
}

/// The item of the answer after this many others, as a record.
fn record_after(count: usize) -> Option<CanonicalRecord<'static>> {
    match parser_after(ANSWER, count) {
        Some(mut parser) => next_record(&mut parser),
        None => None,
    }
}

/// How many octets of the buffer are left after the canonical octets of the record.
fn left_after(count: usize, buffer: &mut [u8]) -> Option<usize> {
    match record_after(count) {
        Some(found) => match found.write(buffer) {
            Ok(rest) => Some(rest.len()),
            Err(_) => None,
        },
        None => None,
    }
}

/// Whether these are the canonical octets of the record, and the octets after them are left.
fn is_written(count: usize, wanted: &[u8]) -> bool {
    let mut buffer = [7u8; 64];
    let left = left_after(count, &mut buffer);
    let (start, rest) = buffer.split_at(wanted.len().min(64));
    left == Some(rest.len()) && start == wanted
}

#[test]
fn records_are_written_in_canonical_form(rt: HostRuntime) {
    for (count, wanted) in [(1, ALIAS), (2, SINGLE)] {
        assert!(rt; is_written(count, wanted), "{count}");
    }
}
