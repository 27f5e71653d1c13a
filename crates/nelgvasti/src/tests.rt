//! Each call on a sample, on each refusal, and on a buffer that is one octet short.

use crate::answers::{DONE, ITEM, NO_SOA, SHORT, TOO_SMALL, USAGE};
use crate::denial::{Nsec3Hash, nelgvasti_key_tag, nelgvasti_nsec3_hash};
use crate::formats::{LISTED, USUAL};
use crate::item_position::ItemPosition;
use crate::message::{
    nelgvasti_canonical, nelgvasti_canonical_by, nelgvasti_canonical_size,
    nelgvasti_canonical_size_by, nelgvasti_same,
};
use crate::names::{nelgvasti_canonical_name, nelgvasti_compare_names};
use crate::normal::nelgvasti_normal;
use crate::records::nelgvasti_compare_records;
use crate::version::nelgvasti_version;
use crate::zone::{ZoneDigest, nelgvasti_zone_digest, nelgvasti_zone_digest_by};
use std::alloc::Global;

/// A reply with an alias, an address and an OPT.
const REPLY: &[u8] =
    b"\x124\x81\x80\0\x01\0\x02\0\0\0\x01\x03www\x07example\x03org\0\0\x01\0\x01\xc0\x0c\0\x05\0\x01\0\0\x0e\x10\0\x06\x03web\xc0\x10\xc0\x2d\0\x01\0\x01\0\0\x0e\x10\0\x04\xc0\0\x02\x01\0\0\x29\x04\xd0\0\0\0\0\0\0";

/// The canonical octets of its records.
const LIST: &[u8] =
    b"\x03web\x07example\x03org\0\0\x01\0\x01\0\0\x0e\x10\0\x04\xc0\0\x02\x01\x03www\x07example\x03org\0\0\x05\0\x01\0\0\x0e\x10\0\x11\x03web\x07example\x03org\0";

/// Its normal form.
const NORMAL: &[u8] =
    b"\0\0\0\0\0\0\0\x02\0\0\0\0\x03web\x07example\x03org\0\0\x01\0\x01\0\0\x0e\x10\0\x04\xc0\0\x02\x01\x03www\xc0\x10\0\x05\0\x01\0\0\x0e\x10\0\x02\xc0\x0c";

/// A server of `COM.`, with a pointer and a TTL of 42.
const SERVER: &[u8] =
    b"\x124\x81\x80\0\0\0\x01\0\0\0\0\x03COM\0\0\x02\0\x01\0\0\0\x2a\0\x02\xc0\x0c";

/// The same without a pointer, in lowercase.
const SAME_SERVER: &[u8] =
    b"\x124\x81\x80\0\0\0\x01\0\0\0\0\x03com\0\0\x02\0\x01\0\0\0\x2a\0\x05\x03com\0";

/// The same with a TTL of 43.
const LATER_SERVER: &[u8] =
    b"\x124\x81\x80\0\0\0\x01\0\0\0\0\x03com\0\0\x02\0\x01\0\0\0\x2b\0\x05\x03com\0";

/// A MINFO record with capital letters, and with pointers as BIND writes them.
const MAILBOXES: &[u8] =
    b"\x124\x81\x80\0\0\0\x01\0\0\0\0\x04Host\x07Example\x03ORG\0\0\x0e\0\x01\0\0\0\x3c\0\x06\x01A\xc0\x11\xc0\x0c";

/// Its canonical octets if its data are octets.
const USUAL_LIST: &[u8] =
    b"\x04host\x07example\x03org\0\0\x0e\0\x01\0\0\0\x3c\0\x06\x01A\xc0\x11\xc0\x0c";

/// Its canonical octets as RFC 4034 section 6.2 has them.
const LISTED_LIST: &[u8] =
    b"\x04host\x07example\x03org\0\0\x0e\0\x01\0\0\0\x3c\0\x21\x01a\x07example\x03org\0\x04host\x07example\x03org\0";

/// A position that no call writes.
const NOWHERE: ItemPosition = ItemPosition {
    message: 9,
    section: 9,
    index: 9,
};

/// What a call left that may write octets.
#[derive(Clone, Copy, PartialEq, Eq)]
struct Left {
    answer: u32,
    length: usize,
    octets: [u8; 80],
    position: ItemPosition,
}

/// The answer, the length, the octets at the start of a buffer of sevens, and the position.
fn leaving(answer: u32, length: usize, written: &[u8], position: ItemPosition) -> Left {
    let mut octets = [7; 80];
    for (to, from) in octets.iter_mut().zip(written) {
        *to = *from;
    }
    Left {
        answer,
        length,
        octets,
        position,
    }
}

/// The position of an item of message 0.
fn at(section: u32, index: u32) -> ItemPosition {
    ItemPosition {
        message: 0,
        section,
        index,
    }
}

fn after_canonical(alloc: Global, message: &[u8], room: usize) -> Left {
    let mut left = leaving(0, 9, &[], NOWHERE);
    let out = &mut left.octets[..room.min(80)];
    left.answer = nelgvasti_canonical(alloc, message, out, &mut left.length, &mut left.position);
    left
}

fn after_normal(alloc: Global, message: &[u8], room: usize) -> Left {
    let mut left = leaving(0, 9, &[], NOWHERE);
    let out = &mut left.octets[..room.min(80)];
    left.answer = nelgvasti_normal(alloc, message, out, &mut left.length, &mut left.position);
    left
}

fn after_name(name: &[u8], room: usize) -> Left {
    let mut left = leaving(0, 9, &[], NOWHERE);
    let out = &mut left.octets[..room.min(80)];
    left.answer = nelgvasti_canonical_name(name, out, &mut left.length);
    left
}

#[test]
fn lists_are_written(rt: HostRuntime) {
    let alloc = rt.alloc();
    let whole = leaving(DONE, 75, LIST, NOWHERE);
    assert!(rt; after_canonical(alloc, REPLY, 80) == whole, "with room");
    assert!(rt;
        after_canonical(alloc, REPLY, 75) == whole,
        "just with room"
    );
    assert!(rt;
        after_canonical(alloc, REPLY, 74) == leaving(TOO_SMALL, 75, &[], NOWHERE),
        "one octet short"
    );
    assert!(rt;
        after_canonical(alloc, REPLY, 0) == leaving(TOO_SMALL, 75, &[], NOWHERE),
        "no room"
    );
    assert!(rt;
        after_canonical(alloc, &REPLY[..11], 80) == leaving(SHORT, 9, &[], at(0, 0)),
        "too short"
    );
    assert!(rt;
        after_canonical(alloc, &REPLY[..66], 80) == leaving(ITEM, 9, &[], at(1, 1)),
        "a record cut"
    );
}

#[test]
fn normal_forms_are_written(rt: HostRuntime) {
    let alloc = rt.alloc();
    let whole = leaving(DONE, 61, NORMAL, NOWHERE);
    assert!(rt; after_normal(alloc, REPLY, 80) == whole, "with room");
    assert!(rt; after_normal(alloc, REPLY, 61) == whole, "just with room");
    assert!(rt;
        after_normal(alloc, REPLY, 60) == leaving(TOO_SMALL, 61, &[], NOWHERE),
        "one octet short"
    );
    assert!(rt;
        after_normal(alloc, &[], 80) == leaving(SHORT, 9, &[], at(0, 0)),
        "too short"
    );
    assert!(rt;
        after_normal(alloc, &REPLY[..30], 80) == leaving(ITEM, 9, &[], at(0, 0)),
        "a question cut"
    );
}

/// What is left by a call for the list by the formats of a number.
fn after_canonical_by(alloc: Global, formats: u32, message: &[u8], room: usize) -> Left {
    let mut left = leaving(0, 9, &[], NOWHERE);
    let out = &mut left.octets[..room.min(80)];
    left.answer = nelgvasti_canonical_by(
        alloc,
        formats,
        message,
        out,
        &mut left.length,
        &mut left.position,
    );
    left
}

#[test]
fn lists_are_written_by_formats(rt: HostRuntime) {
    let alloc = rt.alloc();
    assert!(rt;
        after_canonical_by(alloc, USUAL, MAILBOXES, 80) == leaving(DONE, 34, USUAL_LIST, NOWHERE),
        "usual"
    );
    assert!(rt;
        after_canonical_by(alloc, LISTED, MAILBOXES, 80) == leaving(DONE, 61, LISTED_LIST, NOWHERE),
        "listed"
    );
    assert!(rt;
        after_canonical_by(alloc, LISTED, MAILBOXES, 60) == leaving(TOO_SMALL, 61, &[], NOWHERE),
        "one octet short"
    );
    assert!(rt;
        after_canonical_by(alloc, LISTED, &MAILBOXES[..45], 80) == leaving(ITEM, 9, &[], at(1, 0)),
        "cut"
    );
    assert!(rt;
        after_canonical_by(alloc, 2, MAILBOXES, 80) == leaving(USAGE, 9, &[], NOWHERE),
        "of no number"
    );
}

#[test]
fn sizes_are_counted_by_formats(rt: HostRuntime) {
    let (mut octets, mut records, mut position) = (9, 9, NOWHERE);
    let answer = nelgvasti_canonical_size_by(
        rt.alloc(),
        LISTED,
        MAILBOXES,
        &mut octets,
        &mut records,
        &mut position,
    );
    assert!(rt; (answer, octets, records, position) == (DONE, 61, 1, NOWHERE));
}

#[test]
fn sizes_are_counted(rt: HostRuntime) {
    let (mut octets, mut records, mut position) = (9, 9, NOWHERE);
    let answer = nelgvasti_canonical_size(
        rt.alloc(),
        REPLY,
        &mut octets,
        &mut records,
        &mut position,
    );
    assert!(rt;
        (answer, octets, records, position) == (DONE, 75, 2, NOWHERE),
        "a reply"
    );
    let answer = nelgvasti_canonical_size(
        rt.alloc(),
        &REPLY[..66],
        &mut octets,
        &mut records,
        &mut position,
    );
    assert!(rt;
        (answer, octets, records, position) == (ITEM, 75, 2, at(1, 1)),
        "a record cut"
    );
}

/// The answer to two messages, whether they are the same, and the position.
fn after_same(alloc: Global, first: &[u8], second: &[u8]) -> (u32, u32, ItemPosition) {
    let (mut same, mut position) = (9, NOWHERE);
    let answer = nelgvasti_same(alloc, first, second, &mut same, &mut position);
    (answer, same, position)
}

#[test]
fn messages_are_compared(rt: HostRuntime) {
    let alloc = rt.alloc();
    let second = ItemPosition {
        message: 1,
        section: 0,
        index: 0,
    };
    assert!(rt;
        after_same(alloc, SERVER, SAME_SERVER) == (DONE, 1, NOWHERE),
        "case and compression"
    );
    assert!(rt;
        after_same(alloc, SERVER, LATER_SERVER) == (DONE, 0, NOWHERE),
        "another TTL"
    );
    assert!(rt;
        after_same(alloc, REPLY, NORMAL) == (DONE, 1, NOWHERE),
        "a normal form"
    );
    assert!(rt;
        after_same(alloc, &[], SERVER) == (SHORT, 9, at(0, 0)),
        "the first too short"
    );
    assert!(rt;
        after_same(alloc, SERVER, &[]) == (SHORT, 9, second),
        "the second too short"
    );
    assert!(rt;
        after_same(alloc, &SERVER[..20], &[]) == (ITEM, 9, at(1, 0)),
        "the first cut"
    );
}

#[test]
fn names_are_written_in_lowercase(rt: HostRuntime) {
    let whole = leaving(DONE, 5, b"\x03com\0", NOWHERE);
    assert!(rt; after_name(b"\x03COM\0", 80) == whole, "with room");
    assert!(rt; after_name(b"\x03COM\0", 5) == whole, "just with room");
    assert!(rt;
        after_name(b"\x03COM\0", 4) == leaving(TOO_SMALL, 5, &[], NOWHERE),
        "one octet short"
    );
    assert!(rt;
        after_name(b"\x03COM", 80) == leaving(USAGE, 9, &[], NOWHERE),
        "no root"
    );
    assert!(rt;
        after_name(b"\x03COM\0\0", 80) == leaving(USAGE, 9, &[], NOWHERE),
        "an octet more"
    );
}

/// The answer to two names, and their order.
fn after_names(first: &[u8], second: &[u8]) -> (u32, i32) {
    let mut order = 9;
    let answer = nelgvasti_compare_names(first, second, &mut order);
    (answer, order)
}

/// The first names are those of RFC 4034 section 6.1.
#[test]
fn names_are_compared(rt: HostRuntime) {
    assert!(rt;
        after_names(b"\x07example\0", b"\x01a\x07example\0") == (DONE, -1),
        "a name below"
    );
    assert!(rt;
        after_names(
            b"\x01Z\x01a\x07example\0",
            b"\x08yljkjljk\x01a\x07example\0"
        ) == (DONE, 1),
        "case"
    );
    assert!(rt;
        after_names(b"\x07EXAMPLE\0", b"\x07example\0") == (DONE, 0),
        "case alone"
    );
    assert!(rt;
        after_names(b"\x07example", b"\0") == (USAGE, 9),
        "no first"
    );
    assert!(rt; after_names(b"\0", b"\xc0\x0c") == (USAGE, 9), "no second");
}

/// The answer to two records, and their order.
fn after_records(first: &[u8], second: &[u8]) -> (u32, i32) {
    let mut order = 9;
    let answer = nelgvasti_compare_records(first, second, &mut order);
    (answer, order)
}

#[test]
fn records_are_compared(rt: HostRuntime) {
    let (web, www) = LIST.split_at(31);
    assert!(rt; after_records(web, www) == (DONE, -1), "web before www");
    assert!(rt; after_records(www, web) == (DONE, 1), "www after web");
    assert!(rt;
        after_records(&LATER_SERVER[12..], &SAME_SERVER[12..]) == (DONE, 1),
        "TTLs"
    );
    assert!(rt; after_records(web, web) == (DONE, 0), "one record");
    assert!(rt; after_records(LIST, web) == (USAGE, 9), "two records");
    assert!(rt;
        after_records(web, &SERVER[12..]) == (USAGE, 9),
        "a pointer"
    );
    assert!(rt; after_records(&REPLY[67..], web) == (USAGE, 9), "OPT");
}

/// The answer to a name, a salt of a number of octets and 12 iterations, and the hash.
fn after_hash(name: &[u8], salt: &[u8]) -> (u32, [u8; 20]) {
    let mut hash = Nsec3Hash { octets: [9; 20] };
    let answer = nelgvasti_nsec3_hash(name, salt, 12, &mut hash);
    (answer, hash.octets)
}

/// The hash is that of RFC 5155 appendix A.
#[test]
fn names_are_hashed(rt: HostRuntime) {
    let octets =
        *b"\x06\x53\x68\xab\xee\xd7\xec\x6e\x9f\xeb\xa9\x6b\x8c\x8b\xc3\xe8\xb7\x91\xf7\x16";
    assert!(rt;
        after_hash(b"\x07example\0", b"\xaa\xbb\xcc\xdd") == (DONE, octets),
        "example"
    );
    assert!(rt;
        after_hash(b"\x07example", b"\xaa\xbb\xcc\xdd") == (USAGE, [9; 20]),
        "no name"
    );
    assert!(rt;
        after_hash(b"\0", &[0; 256]) == (USAGE, [9; 20]),
        "a long salt"
    );
}

/// The answer to a key's data, and its tag.
fn after_tag(rdata: &[u8]) -> (u32, u16) {
    let mut tag = 9;
    let answer = nelgvasti_key_tag(rdata, &mut tag);
    (answer, tag)
}

#[test]
fn keys_are_tagged(rt: HostRuntime) {
    assert!(rt;
        after_tag(b"\x01\0\x03\x05\xaa\xbb") == (DONE, 44736),
        "a key"
    );
    assert!(rt;
        after_tag(b"\x01\0\x03\x01\xaa\xbb") == (USAGE, 9),
        "RSA/MD5"
    );
    assert!(rt; after_tag(&[0; 65_536]) == (USAGE, 9), "too long");
    assert!(rt; nelgvasti_version() == 256, "version 0.1.0");
}

/// The zone of RFC 8976 appendix A.1 in a message.
const ZONE: &[u8] =
    b"\x124\x81\x80\0\0\0\x06\0\0\0\0\x07example\0\0\x06\0\x01\0\x01Q\x80\0\x22\x03ns1\xc0\x0c\x05admin\xc0\x0cxH\xb9\x1c\0\0\x07\x08\0\0\x03\x84\0\x09\x3a\x80\0\x01Q\x80\xc0\x0c\0\x02\0\x01\0\x01Q\x80\0\x02\xc0\x1f\xc0\x0c\0\x02\0\x01\0\x01Q\x80\0\x06\x03ns2\xc0\x0c\xc0\x0c\0\x3f\0\x01\0\x01Q\x80\0\x36xH\xb9\x1c\x01\x01\xc6\x80\x90\xd9\x0az\xedqk\xc4Y\xf94\x0e\x3d\x7c\x13p\xd4\xd2K\x7e\x2f\xc3\xa1\xdd\xc0\xb9\xa8qS\xb9\xa9q\x3b\x3c\x9a\xe5\xcc\x27w\x7f\x98\xb8\xe70\x04L\xc0\x1f\0\x01\0\x01\0\0\x0e\x10\0\x04\xcb\0q\x3f\xc0\x5b\0\x1c\0\x01\0\0\x0e\x10\0\x10\x20\x01\x0d\xb8\0\0\0\0\0\0\0\0\0\0\0c";

/// The digest in its ZONEMD record.
const DIGEST: [u8; 48] =
    *b"\xc6\x80\x90\xd9\x0az\xedqk\xc4Y\xf94\x0e\x3d\x7c\x13p\xd4\xd2K\x7e\x2f\xc3\xa1\xdd\xc0\xb9\xa8qS\xb9\xa9q\x3b\x3c\x9a\xe5\xcc\x27w\x7f\x98\xb8\xe70\x04L";

/// What is written before a call.
const NO_DIGEST: ZoneDigest = ZoneDigest {
    records: 9,
    octets: 9,
    digest: [9; 48],
};

/// The answer to messages and an apex, the digest and the position.
fn after_zone(
    alloc: Global,
    messages: &[u8],
    lengths: &[usize],
    apex: &[u8],
) -> (u32, ZoneDigest, ItemPosition) {
    let (mut digest, mut position) = (NO_DIGEST, NOWHERE);
    let answer = nelgvasti_zone_digest(alloc, messages, lengths, apex, &mut digest, &mut position);
    (answer, digest, position)
}

#[test]
fn zones_are_digested_by_formats(rt: HostRuntime) {
    let (mut digest, mut position) = (NO_DIGEST, NOWHERE);
    let (lengths, apex) = ([ZONE.len()], b"\x07EXAMPLE\0");
    let answer = nelgvasti_zone_digest_by(
        rt.alloc(),
        2,
        ZONE,
        &lengths,
        apex,
        &mut digest,
        &mut position,
    );
    assert!(rt; answer == USAGE && digest == NO_DIGEST, "of no number");
    let answer = nelgvasti_zone_digest_by(
        rt.alloc(),
        LISTED,
        ZONE,
        &lengths,
        apex,
        &mut digest,
        &mut position,
    );
    assert!(rt; answer == DONE && digest.digest == DIGEST, "listed");
}

#[test]
fn zones_are_digested(rt: HostRuntime) {
    let alloc = rt.alloc();
    let apex = b"\x07EXAMPLE\0".as_slice();
    let size = ZONE.len();
    let found = ZoneDigest {
        records: 5,
        octets: 197,
        digest: DIGEST,
    };
    let second = ItemPosition {
        message: 1,
        section: 0,
        index: 0,
    };
    assert!(rt;
        after_zone(alloc, ZONE, &[size], apex) == (DONE, found, NOWHERE),
        "one message"
    );
    assert!(rt;
        after_zone(alloc, ZONE, &[size, 0], apex) == (SHORT, NO_DIGEST, second),
        "no second"
    );
    assert!(rt;
        after_zone(alloc, ZONE, &[size - 1, 1], apex) == (ITEM, NO_DIGEST, at(1, 5)),
        "cut"
    );
    assert!(rt;
        after_zone(alloc, ZONE, &[size - 1], apex) == (USAGE, NO_DIGEST, NOWHERE),
        "an octet less"
    );
    assert!(rt;
        after_zone(alloc, ZONE, &[size], b"\x01") == (USAGE, NO_DIGEST, NOWHERE),
        "no apex"
    );
    assert!(rt;
        after_zone(alloc, ZONE, &[size], b"\0") == (NO_SOA, NO_DIGEST, NOWHERE),
        "no SOA"
    );
}
