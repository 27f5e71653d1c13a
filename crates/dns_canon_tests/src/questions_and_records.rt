//! Questions and records of names, without a message around them, through the bounds of their traits.

use dns_name::{Name, NameBuf};
use dns_record::{QClass, QType, Question, RClass, RType, Record, TTL, UnparsedRecordData};
use dns_wire::{BuildBytes, SplitBytes, SplitMessageBytes};

/// The value at the start of octets, and the rest.
fn split<'a, T: SplitBytes<'a>>(octets: &'a [u8]) -> Option<(T, &'a [u8])> {
    T::split_bytes(octets).ok()
}

/// The value at an offset, and where it ends.
fn split_at<'a, T: SplitMessageBytes<'a>>(contents: &'a [u8], start: usize) -> Option<(T, usize)> {
    T::split_message_bytes(contents, start).ok()
}

/// Whether a value is written as the octets, at the start of twenty.
fn writes<T: BuildBytes>(value: &T, octets: &[u8]) -> bool {
    let mut buffer = [0; 20];
    let left = match value.build_bytes(&mut buffer) {
        Ok(rest) => rest.len(),
        Err(_) => return false,
    };
    buffer.starts_with(octets) && left == 20usize.saturating_sub(octets.len())
}

/// Whether a question of this type and name, in class IN, is split, and the rest.
fn splits_question(octets: &[u8], name: &[u8], qtype: QType, rest: &[u8]) -> bool {
    match split::<Question<Name<'_>>>(octets) {
        Some((question, left)) => {
            question.qname.as_bytes() == name
                && question.qtype == qtype
                && question.qclass == QClass::IN
                && left == rest
        }
        None => false,
    }
}

/// Whether a question of this type is split at an offset, ends at another, and is written as the octets.
fn rewrites_question(contents: &[u8], places: (usize, usize), qtype: QType, octets: &[u8]) -> bool {
    match split_at::<Question<NameBuf>>(contents, places.0) {
        Some((question, end)) => {
            end == places.1 && question.qtype == qtype && writes(&question, octets)
        }
        None => false,
    }
}

#[test]
fn question_com(rt: HostRuntime) {
    assert!(rt;
        splits_question(b"\x03com\0\0\x01\0\x01*", b"\x03com\0", QType::A, b"*"),
        "question-com"
    );
    // The name of the second question is a pointer to the first one's.
    let contents = b"\x03com\0\0\x01\0\x01\xc0\x0c\0\x02\0\x01";
    assert!(rt;
        rewrites_question(contents, (9, 15), QType::NS, b"\x03com\0\0\x02\0\x01"),
        "a question with a pointer"
    );
}

/// A record without data, and an octet after it.
const RECORD: &[u8] = b"\x03com\0\0\x01\0\x01\0\0\0\x2a\0\0T";

/// Whether the numbers of a record are A, IN and a TTL of 42.
fn has_numbers(rtype: RType, rclass: RClass, ttl: TTL) -> bool {
    rtype == RType::A && rclass == RClass::IN && ttl == TTL::from(42)
}

/// Whether a record of this owner without data is split, and written again.
fn splits_record(octets: &[u8], owner: &[u8], rest: &[u8]) -> bool {
    match split::<Record<Name<'_>, UnparsedRecordData<'_>>>(octets) {
        Some((record, left)) => {
            record.rname.as_bytes() == owner
                && has_numbers(record.rtype, record.rclass, record.ttl)
                && record.rdata.octets().is_empty()
                && left == rest
        }
        None => false,
    }
}

/// Whether a record at the start is written again as the octets.
fn rewrites_record(octets: &[u8], wanted: &[u8]) -> bool {
    match split::<Record<Name<'_>, UnparsedRecordData<'_>>>(octets) {
        Some((record, _)) => writes(&record, wanted),
        None => false,
    }
}

/// Whether a record with its own owner ends at an offset.
fn ends_record(contents: &[u8], wanted: usize) -> bool {
    match split_at::<Record<NameBuf, UnparsedRecordData<'_>>>(contents, 0) {
        Some((record, end)) => {
            end == wanted && has_numbers(record.rtype, record.rclass, record.ttl)
        }
        None => false,
    }
}

#[test]
fn record_without_data(rt: HostRuntime) {
    assert!(rt;
        splits_record(RECORD, b"\x03com\0", b"T"),
        "record-without-data"
    );
    assert!(rt; rewrites_record(RECORD, &RECORD[..15]), "written again");
    assert!(rt; ends_record(RECORD, 15), "in a message");
}
