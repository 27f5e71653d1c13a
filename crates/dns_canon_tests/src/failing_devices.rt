//! Each call of a device failing in turn, until a run has too few calls to fail.

use crate::answers::{Devices, NEVER, Wanted, answers};
use crate::replies::{ALIKE, HEADER, ORDINARY_REPLY, ORDINARY_REPLY_LINES, REPLY_TWICE};
use dns_canon::Status;
use std::alloc::Global;

/// Whether a run whose source fails at a call ends by a read fault and writes nothing, and from the last call on writes
/// the lines.
fn ends_at_read(
    alloc: Global,
    line: &str,
    text: &str,
    lines: &str,
    (call, last): (u64, u64),
) -> bool {
    let devices = Devices::failing_at([7, 64, 64], [call, NEVER, NEVER]);
    let wanted: Wanted<'_> = if call < last {
        (Status::ReadFault, b"", b"read fault\n")
    } else {
        (Status::Done, lines.as_bytes(), b"")
    };
    answers(alloc, line, text, devices, wanted)
}

/// 156 octets in pieces of seven take 23 reads, and another finds the end.
#[test]
fn each_read_of_canon_fails_in_turn(rt: HostRuntime) {
    for call in 0..25 {
        assert!(rt;
            ends_at_read(
                rt.alloc(),
                "canon",
                ORDINARY_REPLY,
                ORDINARY_REPLY_LINES,
                (call, 24)
            ),
            "{call}"
        );
    }
}

/// 313 octets in pieces of seven take 45 reads, and another finds the end.
#[test]
fn each_read_of_same_fails_in_turn(rt: HostRuntime) {
    for call in 0..47 {
        assert!(rt;
            ends_at_read(rt.alloc(), "same", REPLY_TWICE, "same\n", (call, 46)),
            "{call}"
        );
    }
}

/// Whether `canon` for these digits, in pieces of 4,096, ends as wanted if the source fails at a call.
fn ends_for_digits(alloc: Global, digits: &[u8], call: u64, wanted: Wanted<'_>) -> bool {
    let devices = Devices::failing_at([4096, 64, 64], [call, NEVER, NEVER]);
    let text = str::from_utf8(digits).unwrap_or("");
    answers(alloc, "canon", text, devices, wanted)
}

/// 131,073 digits in pieces of 4,096 take 33 reads, and no read follows the one that finds the text too long.
#[test]
fn no_read_follows_the_limit(rt: HostRuntime) {
    let digits = [b'0'; 131_073];
    let cases: [(u64, Wanted<'static>); 2] = [
        (32, (Status::ReadFault, b"", b"read fault\n")),
        (33, (Status::TooLong, b"", b"too long\n")),
    ];
    for (call, wanted) in cases {
        assert!(rt;
            ends_for_digits(rt.alloc(), &digits, call, wanted),
            "{call}"
        );
    }
}

/// Whether a run whose sink fails at a call ends by a write fault, with what was written before, and from the last call on
/// writes the lines.
fn ends_at_write(
    alloc: Global,
    line: &str,
    text: &str,
    lines: &str,
    (call, last): (u64, u64),
) -> bool {
    let devices = Devices::failing_at([4096, 7, 64], [NEVER, call, NEVER]);
    let before = lines.len().min(7usize.saturating_mul(call as usize));
    let wanted: Wanted<'_> = if call < last {
        (
            Status::WriteFault,
            &lines.as_bytes()[..before],
            b"write fault\n",
        )
    } else {
        (Status::Done, lines.as_bytes(), b"")
    };
    answers(alloc, line, text, devices, wanted)
}

/// 152 octets in pieces of seven take 22 writes, and another call flushes: if that fails, all lines are written.
#[test]
fn each_write_of_canon_fails_in_turn(rt: HostRuntime) {
    for call in 0..24 {
        assert!(rt;
            ends_at_write(
                rt.alloc(),
                "canon",
                ORDINARY_REPLY,
                ORDINARY_REPLY_LINES,
                (call, 23)
            ),
            "{call}"
        );
    }
}

#[test]
fn each_write_of_a_word_fails_in_turn(rt: HostRuntime) {
    for call in 0..3 {
        assert!(rt;
            ends_at_write(rt.alloc(), "same", REPLY_TWICE, "same\n", (call, 2)),
            "{call}"
        );
    }
}

/// 31 octets in pieces of seven take five writes, and another call flushes.
#[test]
fn each_write_of_make_fails_in_turn(rt: HostRuntime) {
    for call in 0..7 {
        assert!(rt;
            ends_at_write(
                rt.alloc(),
                "make 2",
                "",
                "records 2 octets 67 message 65\n",
                (call, 6)
            ),
            "{call}"
        );
    }
}

/// 123 octets in pieces of 40 take four reads, and another finds the end.
#[test]
fn reads_of_two_messages_in_long_pieces_fail_in_turn(rt: HostRuntime) {
    for call in 0..5 {
        let devices = Devices::failing_at([40, 64, 64], [call, NEVER, NEVER]);
        assert!(rt;
            answers(
                rt.alloc(),
                "same",
                ALIKE,
                devices,
                (Status::ReadFault, b"", b"read fault\n")
            ),
            "{call}"
        );
    }
    let devices = Devices::failing_at([40, 64, 64], [5, NEVER, NEVER]);
    assert!(rt;
        answers(
            rt.alloc(),
            "same",
            ALIKE,
            devices,
            (Status::Done, b"same\n", b"")
        ),
        "5"
    );
}

/// The call at which a sink fails, and what it took before.
const CUT_WORDS: &[(u64, &[u8])] = &[(0, b""), (1, b"sa"), (2, b"same"), (3, b"same\n")];

/// Five octets in pieces of two take three writes, and another call flushes.
#[test]
fn writes_of_a_word_in_short_pieces_fail_in_turn(rt: HostRuntime) {
    for (call, written) in CUT_WORDS {
        let devices = Devices::failing_at([4096, 2, 64], [NEVER, *call, NEVER]);
        let wanted: Wanted<'_> = (Status::WriteFault, *written, b"write fault\n");
        assert!(rt;
            answers(rt.alloc(), "same", ALIKE, devices, wanted),
            "{call}"
        );
    }
    let devices = Devices::failing_at([4096, 2, 64], [NEVER, 4, NEVER]);
    assert!(rt;
        answers(
            rt.alloc(),
            "same",
            ALIKE,
            devices,
            (Status::Done, b"same\n", b"")
        ),
        "4"
    );
}

/// A word and a text, the call at which the notes fail, the message that is short, and the line on the notes.
const CUT_NOTES: &[(&str, &str, u64, u8, &[u8])] = &[
    ("canon", "", 0, 0, b""),
    ("same", HEADER, 0, 1, b""),
    ("same", HEADER, 1, 1, b"sho"),
];

/// A fault of the notes changes no answer.
#[test]
fn notes_that_fail_change_no_answer(rt: HostRuntime) {
    for (line, text, call, message, note) in CUT_NOTES {
        let devices = Devices::failing_at([4096, 64, 3], [NEVER, NEVER, *call]);
        let wanted: Wanted<'_> = (Status::Short { message: *message }, b"", *note);
        assert!(rt;
            answers(rt.alloc(), line, text, devices, wanted),
            "notes-fault-at-{call}: {line}"
        );
    }
}

/// A name and a text, the calls at which the source and the sink fail, the room of the sink, and how many octets are written.
type Case = (&'static str, &'static str, u64, u64, usize, usize);

/// Nothing to write and a fault at the flush, a fault at the second write, a sink that is full after ten octets, and a
/// fault at the first read.
const CASES: &[Case] = &[
    ("write-fault-at-flush", HEADER, NEVER, 0, 200, 0),
    ("write-fault-at-1", ORDINARY_REPLY, NEVER, 1, 200, 8),
    ("sink-of-ten-octets", ORDINARY_REPLY, NEVER, NEVER, 10, 10),
    ("read-fault-at-0", ORDINARY_REPLY, 0, NEVER, 200, 0),
];

/// Whether `canon` ends as the case says.
fn ends_as_wanted(alloc: Global, case: &Case) -> bool {
    let (_, text, read, write, room, written) = *case;
    let devices = Devices {
        pieces: [4096, 8, 64],
        failing: [read, write, NEVER],
        room,
    };
    let lines = ORDINARY_REPLY_LINES.as_bytes();
    let wanted: Wanted<'_> = if read == 0 {
        (Status::ReadFault, b"", b"read fault\n")
    } else {
        (
            Status::WriteFault,
            &lines[..written.min(lines.len())],
            b"write fault\n",
        )
    };
    answers(alloc, "canon", text, devices, wanted)
}

#[test]
fn device_cases(rt: HostRuntime) {
    for case in CASES {
        let name = case.0;
        assert!(rt; ends_as_wanted(rt.alloc(), case), "{name}");
    }
}
