//! Codes and printed texts of statuses, commands and limits.

use crate::answers::words_of;
use dns_canon::{LIMIT_OF_TWO, MESSAGE_TEXT_LIMIT, MOST_RECORDS, READ_CHUNK, Status, run};
use dns_text::{NullSink, PlainSource};
use std::alloc::Global;

/// Statuses, and their codes.
const CODES: &[(Status, u8)] = &[
    (Status::Done, 0),
    (Status::Short { message: 0 }, 1),
    (
        Status::Item {
            message: 0,
            section: 0,
            index: 0,
        },
        2,
    ),
    (Status::BadHex, 3),
    (Status::TooLong, 4),
    (Status::Usage, 5),
    (Status::ReadFault, 6),
    (Status::WriteFault, 7),
    (Status::Memory, 8),
];

#[test]
fn ends_with_a_code(rt: HostRuntime) {
    for (status, code) in CODES {
        assert!(rt; status.code() == *code, "{code}");
    }
}

/// How a line of words ends over an empty text.
fn ending_of(alloc: Global, line: &str) -> Option<Status> {
    let Ok(words) = words_of(alloc, line) else {
        return None;
    };
    let mut source = PlainSource::new(b"");
    Some(run(alloc, &words, &mut source, &mut NullSink, &mut NullSink))
}

/// Lines of words, and how they end over an empty text, whose message has no octets.
const ENDINGS: &[(&str, Status)] = &[
    ("canon", Status::Short { message: 0 }),
    ("same", Status::Short { message: 0 }),
    ("make 1000", Status::Done),
    ("make 1001", Status::Usage),
    ("make 01", Status::Usage),
    ("canonical", Status::Usage),
];

#[test]
fn words_name_commands(rt: HostRuntime) {
    for (line, status) in ENDINGS {
        assert!(rt; ending_of(rt.alloc(), line) == Some(*status), "{line}");
    }
}

#[test]
fn keeps_limits(rt: HostRuntime) {
    let limits = (
        MESSAGE_TEXT_LIMIT,
        LIMIT_OF_TWO,
        usize::from(MOST_RECORDS),
        READ_CHUNK,
    );
    assert!(rt; limits == (131_072, 262_144, 1000, 4096), "limits");
}
