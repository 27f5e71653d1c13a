//! Names written in a message, as RFC 1035 section 4.1.4 shows them and as dnspython 2.3.0 writes them.

use crate::assertion::holds;
use crate::names::name;
use crate::pointers::end_of_name;
use crate::writing::end_in_message;
use dns_name::{Name, NameBuf};
use dns_wire::SplitMessageBytes;
use std::alloc::Global;

/// Names, each with the offset at which it ends in the contents of a message.
const NAMES: &[(&[u8], usize)] = &[
    (b"\x03www\x07Example\x03org\0", 17),
    (b"\x04mail\x07example\x03ORG\0", 24),
    (b"\x07example\x03net\0", 37),
    (b"\x03ORG\0", 39),
    (b"\x01a\x01b\x03www\x07example\x03org\0", 45),
    (b"\x01B\x03WWW\x07EXAMPLE\x03ORG\0", 47),
    (b"\x03www\x07example\x03net\0", 53),
    (b"\x01c\x01b\x03www\x07example\x03com\0", 74),
    (b"\x03com\0", 76),
    (b"\0", 77),
    (b"\x04mail\x07example\x03org\0", 79),
    (b"\x01x\x01A\x01b\x03www\x07example\x03org\0", 83),
    (b"\x07example\x03org\x07example\x03net\0", 97),
    (b"\x01\0\x01\xff\x03a.b\x03net\0", 107),
];

/// The contents of the message with these names: `dns.name.Name.to_wire` wrote them one after another with
/// one table of names for all of them, after 12 octets for the header.
const CONTENTS: [u8; 107] = *b"\x03www\x07Example\x03org\0\x04mail\xc0\x10\x07example\x03net\0\
    \xc0\x18\x01a\x01b\xc0\x0c\xc0\x35\x03www\xc0\x24\x01c\x01b\x03www\x07example\x03com\0\xc0\x51\0\xc0\x1d\
    \x01x\xc0\x33\x07example\x03org\xc0\x24\x01\0\x01\xff\x03a.b\xc0\x2c";

/// The offsets of that table, counted from the end of the header.
const PLACES: [u16; 20] = [
    0, 4, 12, 17, 24, 32, 39, 41, 47, 53, 55, 57, 61, 69, 79, 83, 91, 97, 99, 101,
];

/// The names that the octets are.
fn names(alloc: Global, octets: &[(&[u8], usize)]) -> Option<Vec<NameBuf>> {
    let mut names = Vec::new(alloc);
    for (octets, _end) in octets {
        if names.push(NameBuf::copy_from(name(octets))).is_err() {
            return None;
        }
    }
    Some(names)
}

/// Whether names are written as these octets, with these places.
fn writes_names(names: &[NameBuf], wanted: &[u8; 107], places: &[u16]) -> bool {
    let mut contents = [0; 107];
    end_in_message(&names, &mut contents, places) == Some(107) && &contents == wanted
}

#[test]
fn compresses_names_as_other_software_does(rt: HostRuntime) {
    let names = names(rt.alloc(), NAMES);
    let is_written = match &names {
        Some(names) => writes_names(names.as_slice(), &CONTENTS, &PLACES),
        None => false,
    };
    holds(&rt, is_written, "contents and places");
}

/// Two names, the octets that they are written as one after the other, and the offsets that names can then point to.
type Pair = (
    &'static str,
    &'static [u8],
    &'static [u8],
    &'static [u8],
    &'static [u16],
);

/// Names with the same last label but for case, one name twice, names with one label in common, and names with none.
const PAIRS: &[Pair] = &[
    (
        "two-names-compressed",
        b"\x07example\x03org\0",
        b"\x07unequal\x03ORG\0",
        b"\x07example\x03org\0\x07unequal\xc0\x14",
        &[0, 8, 13],
    ),
    (
        "name-written-twice",
        b"\x01a\x01b\0",
        b"\x01a\x01b\0",
        b"\x01a\x01b\0\xc0\x0c",
        &[0, 2],
    ),
    (
        "one label in common",
        b"\x07example\x03org\0",
        b"\x07unequal\x03org\0",
        b"\x07example\x03org\0\x07unequal\xc0\x14",
        &[0, 8, 13],
    ),
    (
        "no label in common",
        b"\x07example\x03org\0",
        b"\x07example\x03com\0",
        b"\x07example\x03org\0\x07example\x03com\0",
        &[0, 8, 13, 21],
    ),
];

/// Whether two names are written one after the other as these octets.
fn writes_two(one: &[u8], other: &[u8], octets: &[u8], places: &[u16]) -> bool {
    let mut contents = [0; 26];
    let end = end_in_message(&(name(one), name(other)), &mut contents, places);
    end == Some(octets.len()) && contents.starts_with(octets)
}

#[test]
fn two_names_are_compressed(rt: HostRuntime) {
    for (what, one, other, octets, places) in PAIRS {
        assert!(rt; writes_two(one, other, octets, places), "{what}");
    }
}

/// Where the name ends that begins at the offset, if it is this one, except for case.
fn end_of_equal_name(contents: &[u8], offset: usize, octets: &[u8]) -> Option<usize> {
    match NameBuf::split_message_bytes(contents, offset) {
        Ok((found, end)) => {
            if found.as_name() == name(octets) {
                Some(end)
            } else {
                None
            }
        }
        Err(_) => None,
    }
}

#[test]
fn reads_names_that_other_software_wrote(rt: HostRuntime) {
    let mut offset = 0;
    for (octets, end) in NAMES {
        let found = end_of_equal_name(&CONTENTS, offset, octets);
        assert!(rt; found == Some(*end), "the name at {offset}");
        offset = *end;
    }
}

/// RFC 1035's message after its header: the names are at 20, 40, 64 and 92 of the message, and so at 8, 28, 52 and
/// 80 of this, and dots are in place of what is between them.
const STANDARD: [u8; 81] =
    *b"........\x01F\x03ISI\x04ARPA\0........\x03FOO\xc0\x14..................\xc0\x1a\
    ..........................\0";

/// Whether the names of `STANDARD` are written so one after another, the dots with them.
fn writes_standard(places: &[u16]) -> bool {
    let parts: [(&[u8], Name<'_>); 4] = [
        (b"........", name(b"\x01F\x03ISI\x04ARPA\0")),
        (b"........", name(b"\x03FOO\x01F\x03ISI\x04ARPA\0")),
        (b"..................", name(b"\x04ARPA\0")),
        (b"..........................", Name::root()),
    ];
    let mut contents = [0; 81];
    end_in_message(&parts, &mut contents, places) == Some(81) && contents == STANDARD
}

#[test]
fn compresses_the_names_of_the_standard(rt: HostRuntime) {
    holds(
        &rt,
        writes_standard(&[8, 10, 14, 28]),
        "contents and places",
    );
}

/// The names of `STANDARD`, where they begin, their octets, and where they end.
const STANDARD_NAMES: &[(&str, usize, &[u8], usize)] = &[
    ("F.ISI.ARPA", 8, b"\x01F\x03ISI\x04ARPA\0", 20),
    ("FOO.F.ISI.ARPA", 28, b"\x03FOO\x01F\x03ISI\x04ARPA\0", 34),
    ("ARPA", 52, b"\x04ARPA\0", 54),
    ("the root", 80, b"\0", 81),
];

#[test]
fn reads_the_names_of_the_standard(rt: HostRuntime) {
    for (what, offset, octets, end) in STANDARD_NAMES {
        let found = end_of_name(&STANDARD, *offset, octets);
        assert!(rt; found == Some(*end), "{what}");
    }
}
