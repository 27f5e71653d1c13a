//! Messages that are built, as dnspython 2.3.0 writes them, and each refusal.

use crate::assertions::holds;
use crate::record_data::{Data, read};
use dns_edns::{EdnsFlags, Opt};
use dns_message::{HeaderFlags, MessageBuildError, MessageBuilder};
use dns_name::NameBuf;
use dns_num::{SizePrefixed, U16};
use dns_rdata::EdnsRecord;
use dns_record::{QClass, QType, Question, RClass, RType, Record, TTL};
use dns_wire::{NameCompressor, ParseBytes};
use std::alloc::Global;

/// The answer of an authority to a question for an address: an alias and its target, a name server and its
/// address, and EDNS, each name written once.
const ANSWER: &[u8] =
    b"\x12\x34\x85\x80\0\x01\0\x02\0\x01\0\x02\x03www\x07example\x03org\0\0\x01\0\x01\xc0\x0c\0\x05\0\x01\0\0\x01\x2c\0\x07\x04host\xc0\x10\xc0\x2d\0\x01\0\x01\0\0\x01\x2c\0\x04\xc0\0\x02\x50\xc0\x10\0\x02\0\x01\0\0\x0e\x10\0\x06\x03ns1\xc0\x10\xc0\x50\0\x1c\0\x01\0\0\x0e\x10\0\x10\x20\x01\x0d\xb8\0\0\0\0\0\0\0\0\0\0\0\x53\0\0\x29\x04\xd0\0\0\0\0\0\0";

/// The name that is asked for.
const WWW: &[u8] = b"\x03www\x07example\x03org\0";

/// The name that it is an alias of.
const HOST: &[u8] = b"\x04host\x07example\x03org\0";

/// The zone.
const ZONE: &[u8] = b"\x07example\x03org\0";

/// The server of the zone.
const SERVER: &[u8] = b"\x03ns1\x07example\x03org\0";

/// The records of the answer.
const RECORDS: [Parts<'static>; 4] = [
    ('a', WWW, 5, 300, HOST),
    ('a', HOST, 1, 300, b"\xc0\0\x02\x50"),
    ('n', ZONE, 2, 3600, SERVER),
    (
        'r',
        SERVER,
        28,
        3600,
        b"\x20\x01\x0d\xb8\0\0\0\0\0\0\0\0\0\0\0\x53",
    ),
];

/// Why the push is refused, if it is.
type Refusal = Option<MessageBuildError>;

/// A record with an owned owner.
type OwnedRecord<'a> = Record<NameBuf, Data<'a>>;

/// Why the record is refused as an answer.
fn push_answer(builder: &mut MessageBuilder<'_>, found: &OwnedRecord<'_>) -> Refusal {
    builder.push_answer(found).err()
}

/// Why the record is refused among those of authorities.
fn push_authority(builder: &mut MessageBuilder<'_>, found: &OwnedRecord<'_>) -> Refusal {
    builder.push_authority(found).err()
}

/// Why the record is refused among the additional ones.
fn push_additional(builder: &mut MessageBuilder<'_>, found: &OwnedRecord<'_>) -> Refusal {
    builder.push_additional(found).err()
}

/// Why the record is refused in the section of this letter.
fn push_in(builder: &mut MessageBuilder<'_>, section: char, found: &OwnedRecord<'_>) -> Refusal {
    match section {
        'a' => push_answer(builder, found),
        'n' => push_authority(builder, found),
        _ => push_additional(builder, found),
    }
}

/// The record of these parts.
fn record_of<'a>(owner: &[u8], number: u16, ttl: u32, octets: &'a [u8]) -> Option<OwnedRecord<'a>> {
    match (NameBuf::parse_bytes(owner), read(number, octets)) {
        (Ok(owner), Some(data)) => {
            let rtype = RType::from(number);
            Some(Record::new(owner, rtype, RClass::IN, TTL::from(ttl), data))
        }
        _ => None,
    }
}

/// The section, the owner, the type, the time to live and the data of a record.
pub(crate) type Parts<'a> = (char, &'a [u8], u16, u32, &'a [u8]);

/// Why a record of these parts is refused; `None` if there is no such record.
fn push_record(builder: &mut MessageBuilder<'_>, parts: Parts<'_>) -> Option<Refusal> {
    let (section, owner, number, ttl, octets) = parts;
    match record_of(owner, number, ttl, octets) {
        Some(found) => Some(push_in(builder, section, &found)),
        None => None,
    }
}

/// Whether a record of these parts is pushed.
pub(crate) fn is_pushed(builder: &mut MessageBuilder<'_>, parts: Parts<'_>) -> bool {
    push_record(builder, parts) == Some(None)
}

/// Whether the records of the answer are pushed.
fn are_pushed(builder: &mut MessageBuilder<'_>) -> bool {
    for parts in RECORDS {
        if !is_pushed(builder, parts) {
            return false;
        }
    }
    true
}

/// Why a question for this name and this type is refused.
fn push_question(builder: &mut MessageBuilder<'_>, name: &[u8], qtype: QType) -> Refusal {
    match NameBuf::parse_bytes(name) {
        Ok(name) => builder
            .push_question(&Question::new(&name, qtype, QClass::IN))
            .err(),
        Err(_) => None,
    }
}

/// Whether an EDNS record with this payload and without options is pushed.
fn is_edns_pushed(builder: &mut MessageBuilder<'_>, payload: u16) -> bool {
    let edns = EdnsRecord {
        max_udp_payload: U16::new(payload),
        ext_rcode: 0,
        version: 0,
        flags: EdnsFlags::default(),
        content: SizePrefixed::new(Opt::empty()),
    };
    builder.push_edns(&edns).is_ok()
}

/// Whether the answer is built as these octets.
fn is_answer_built(wanted: &[u8]) -> bool {
    let mut buffer = [0; 512];
    let mut names = NameCompressor::new();
    let (id, flags) = (U16::new(0x1234), HeaderFlags::from_bits(0x8580));
    let mut builder = MessageBuilder::new(&mut buffer, &mut names, id, flags);
    push_question(&mut builder, WWW, QType::A).is_none()
        && are_pushed(&mut builder)
        && is_edns_pushed(&mut builder, 1232)
        && builder.message().as_bytes() == wanted
}

#[test]
fn an_answer_with_records_in_three_sections(rt: HostRuntime) {
    holds(&rt, is_answer_built(ANSWER), "the answer");
}

/// Why an address and a question after it are refused in a buffer, and how many octets the message has then.
fn push_two(buffer: &mut [u8]) -> Option<(Option<Refusal>, Refusal, usize)> {
    if buffer.len() < 12 {
        return None;
    }
    let mut names = NameCompressor::new();
    let (id, flags) = (U16::new(7), HeaderFlags::from_bits(0x8400));
    let mut builder = MessageBuilder::new(buffer, &mut names, id, flags);
    let address = push_record(&mut builder, ('a', WWW, 1, 42, b"\x7f\0\0\x01"));
    let question = push_question(&mut builder, b"\0", QType::NS);
    Some((address, question, builder.message().as_bytes().len()))
}

/// An address takes 31 octets, and a question of the root 5.
#[test]
fn an_item_fits_exactly_or_is_refused(rt: HostRuntime) {
    let wanted =
        b"\0\x07\x84\0\0\0\0\x01\0\0\0\0\x03www\x07example\x03org\0\0\x01\0\x01\0\0\0\x2a\0\x04\x7f\0\0\x01";
    let mut buffer = [0; 43];
    let pushed = push_two(&mut buffer);
    let answers = Some((Some(None), Some(MessageBuildError::Misplaced), 43));
    holds(&rt, pushed == answers, "builder-over-43-octets: refusals");
    let is_message = buffer.as_slice() == wanted.as_slice();
    holds(&rt, is_message, "builder-over-43-octets: contents");
    let mut buffer = [0; 42];
    let pushed = push_two(&mut buffer);
    let question = Some((Some(Some(MessageBuildError::Truncated)), None, 17));
    holds(&rt, pushed == question, "builder-over-43-octets: over 42");
    let wanted = b"\0\x07\x84\0\0\x01\0\0\0\0\0\0\0\0\x02\0\x01";
    let is_question = buffer.starts_with(wanted);
    holds(&rt, is_question, "builder-over-43-octets: a question alone");
}

#[test]
fn a_new_message_is_empty(rt: HostRuntime) {
    let mut buffer = [1; 12];
    let mut names = NameCompressor::new();
    let flags = HeaderFlags::default();
    let builder = MessageBuilder::new(&mut buffer, &mut names, U16::new(0), flags);
    let is_empty = builder.message().as_bytes() == [0; 12].as_slice();
    holds(&rt, is_empty, "twelve octets");
}

/// A buffer for the most questions of the root, which take 5 octets each, and one for a question fewer.
const MOST_QUESTIONS: &[(&str, usize, usize, MessageBuildError)] = &[
    ("the most", 327_687, 65_535, MessageBuildError::TooMany),
    ("one fewer", 327_682, 65_534, MessageBuildError::Truncated),
];

/// Whether this many questions of the root are pushed.
fn are_questions_pushed(builder: &mut MessageBuilder<'_>, count: usize) -> bool {
    for _index in 0..count {
        if push_question(builder, b"\0", QType::NS).is_some() {
            return false;
        }
    }
    true
}

/// Why a question and an answer are refused after this many questions in a buffer of this size, and how many octets the message has then.
fn refusals_after(alloc: Global, size: usize, count: usize) -> Option<(Refusal, Refusal, usize)> {
    let Ok(mut buffer) = vec![in alloc; 0; size] else {
        return None;
    };
    if buffer.len() < 12 {
        return None;
    }
    let mut names = NameCompressor::new();
    let flags = HeaderFlags::default();
    let mut builder = MessageBuilder::new(&mut buffer, &mut names, U16::new(7), flags);
    if !are_questions_pushed(&mut builder, count) {
        return None;
    }
    let question = push_question(&mut builder, b"\0", QType::NS);
    let answer = push_record(&mut builder, ('a', b"\0", 1, 42, b"\x7f\0\0\x01"))?;
    Some((question, answer, builder.message().as_bytes().len()))
}

#[test]
fn a_section_has_at_most_65535_items(rt: HostRuntime) {
    for (what, size, count, refusal) in MOST_QUESTIONS {
        let found = refusals_after(rt.alloc(), *size, *count);
        let wanted = Some((Some(*refusal), Some(MessageBuildError::Truncated), *size));
        assert!(rt; found == wanted, "{what}");
    }
}

/// Whether this is the text of the error.
fn has_text(alloc: Global, error: MessageBuildError, text: &str) -> bool {
    match error.to_string(alloc) {
        Ok(found) => found.as_str() == text,
        Err(_) => false,
    }
}

#[test]
fn errors_have_texts(rt: HostRuntime) {
    let texts = [
        (MessageBuildError::Misplaced, "a later section has an item"),
        (MessageBuildError::TooMany, "the section is full"),
        (MessageBuildError::Truncated, "the item does not fit"),
    ];
    for (error, text) in texts {
        assert!(rt; has_text(rt.alloc(), error, text), "{text}");
    }
}
