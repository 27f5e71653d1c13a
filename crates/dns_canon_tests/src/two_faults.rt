//! Faults of two devices at once.

use crate::answers::{Devices, NEVER, Wanted, answers};
use crate::replies::ORDINARY_REPLY;
use dns_canon::Status;
use std::alloc::Global;

/// A line of words, a text, the calls at which the source, the sink and the notes fail, the status, and the line on the notes.
type Case = (&'static str, &'static str, [u64; 3], Status, &'static [u8]);

/// Runs of which two devices or more would fail.
const CASES: &[Case] = &[
    (
        "canon",
        "0g",
        [NEVER, 0, NEVER],
        Status::BadHex,
        b"bad hex\n",
    ),
    (
        "canon",
        "0g",
        [0, 0, NEVER],
        Status::ReadFault,
        b"read fault\n",
    ),
    (
        "canon",
        ORDINARY_REPLY,
        [3, NEVER, 0],
        Status::ReadFault,
        b"",
    ),
    (
        "canon canon",
        "0g",
        [0, 0, NEVER],
        Status::Usage,
        b"usage\n",
    ),
    (
        "make 2",
        "",
        [0, 0, NEVER],
        Status::WriteFault,
        b"write fault\n",
    ),
    ("make 1001", "", [0, 0, NEVER], Status::Usage, b"usage\n"),
];

/// Whether a run ends as its case says, with nothing written.
fn ends_as_wanted(alloc: Global, case: &Case) -> bool {
    let (line, text, failing, status, note) = *case;
    let devices = Devices::failing_at([7, 7, 64], failing);
    answers(alloc, line, text, devices, (status, b"", note))
}

/// The first of two faults is reported in the order of words, reading, the text, writing. A fault of the notes is none of
/// the answer.
#[test]
fn the_first_of_two_faults_is_reported(rt: HostRuntime) {
    for case in CASES {
        let (line, text) = (case.0, case.1);
        assert!(rt; ends_as_wanted(rt.alloc(), case), "{line} {text}");
    }
    let devices = Devices::failing_at([7, 7, 64], [NEVER, 1, 0]);
    let wanted: Wanted<'_> = (Status::WriteFault, b"0377656", b"");
    assert!(rt;
        answers(rt.alloc(), "canon", ORDINARY_REPLY, devices, wanted),
        "sink and notes"
    );
}

/// `make` reads nothing: its source would fail at the first read.
#[test]
fn make_reads_nothing(rt: HostRuntime) {
    let devices = Devices::failing_at([7, 7, 7], [0, NEVER, NEVER]);
    let wanted: Wanted<'_> = (Status::Done, b"records 4 octets 135 message 112\n", b"");
    assert!(rt;
        answers(rt.alloc(), "make 4", "unread", devices, wanted),
        "make-4"
    );
}
