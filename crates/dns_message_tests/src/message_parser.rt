//! Messages that are read item by item.

use crate::assertions::holds;
use dns_message::{MessageItem, MessageParser, ParsedMessageItem};
use dns_name::{NameBuf, RevNameBuf};
use dns_rdata::RecordData;
use dns_record::Record;
use dns_wire::ParseBytes;

/// The answer of BIND, as a resolver, to a question for an alias: a question, an alias, an address and an OPT with a cookie.
pub(crate) const ANSWER: &[u8] =
    b"\x3a\x4f\x81\x80\0\x01\0\x02\0\0\0\x01\x05Alias\x07Example\x03ORG\0\0\x01\0\x01\x05alias\x07example\x03org\0\0\x05\0\x01\0\0\x01\x2c\0\x09\x06single\xc0\x29\xc0\x40\0\x01\0\x01\0\0\x01\x2c\0\x04\xc0\0\x02\x5a\0\0\x29\x04\xd0\0\0\0\0\0\x1c\0\x0a\0\x18\xe0\x0f\x5a\x3b\x6e\x7b\x8e\x68\x01\0\0\0\x6b\x09\x76\xcb\x72\x0d\xdc\x96\xda\x5e\x61\x7b";

/// Three additional records: an address of the root, an OPT whose owner is a pointer to that root, and an OPT whose owner is the
/// root itself.
const OPTS: &[u8] =
    b"\0\0\0\0\0\0\0\0\0\0\0\x03\0\0\x01\0\x01\0\0\0\x3c\0\x04\xc0\0\x02\x01\xc0\x0c\0\x29\x04\xd0\0\0\0\0\0\0\0\0\x29\x04\xd0\0\0\x80\0\0\0";

/// A kind of item, the number of its type, and its time to live or its flags.
type Line = (char, u16, u32);

/// The line of a record.
fn line_of_record(kind: char, found: &Record<RevNameBuf, RecordData<'_, NameBuf>>) -> Line {
    (kind, u16::from(found.rtype), found.ttl.as_secs())
}

/// The line of an item.
fn line_of(item: &ParsedMessageItem<'_>) -> Line {
    match item {
        MessageItem::Question(question) => ('q', question.qtype.code.get(), 0),
        MessageItem::Answer(found) => line_of_record('a', found),
        MessageItem::Authority(found) => line_of_record('n', found),
        MessageItem::Additional(found) => line_of_record('r', found),
        MessageItem::Edns(edns) => ('e', 41, u32::from(edns.flags.bits())),
    }
}

/// Whether this is the name, in either case.
fn is_name(name: &RevNameBuf, wanted: &[u8]) -> bool {
    match NameBuf::parse_bytes(wanted) {
        Ok(wanted) => name.as_revname().to_name() == wanted,
        Err(_) => false,
    }
}

/// Whether this is the owner of the item.
fn is_owner(item: &ParsedMessageItem<'_>, wanted: &[u8]) -> bool {
    match item {
        MessageItem::Question(question) => is_name(&question.qname, wanted),
        MessageItem::Answer(found)
        | MessageItem::Authority(found)
        | MessageItem::Additional(found) => is_name(&found.rname, wanted),
        MessageItem::Edns(_) => wanted == b"\0".as_slice(),
    }
}

/// The parser of a message, after this many items.
pub(crate) fn parser_after(message: &[u8], count: usize) -> Option<MessageParser<'_>> {
    match MessageParser::new(message) {
        Ok(mut parser) => {
            for _index in 0..count {
                let _is_item = parser.next().is_some();
            }
            Some(parser)
        }
        Err(_) => None,
    }
}

/// The line of the next item, `!` if it is refused, `.` if there is none, and `?` if it has another owner.
fn next_line(parser: &mut MessageParser<'_>, owner: &[u8]) -> Line {
    match parser.next() {
        Some(Ok(item)) => {
            if is_owner(&item, owner) {
                line_of(&item)
            } else {
                ('?', 0, 0)
            }
        }
        Some(Err(_)) => ('!', 0, 0),
        None => ('.', 0, 0),
    }
}

/// The same of the item after this many others, and where the parser is then.
fn line_after(message: &[u8], count: usize, owner: &[u8]) -> Option<(Line, usize)> {
    match parser_after(message, count) {
        Some(mut parser) => {
            let line = next_line(&mut parser, owner);
            Some((line, parser.offset()))
        }
        None => None,
    }
}

/// The name that the answer is about.
const ALIAS: &[u8] = b"\x05alias\x07example\x03org\0";

/// The name that it is an alias of.
const SINGLE: &[u8] = b"\x06single\x07example\x03org\0";

/// The counts of a message of one answer, and nothing else.
const NO_ANSWER: &[u8] = b"\0\0\0\0\0\0\0\x01\0\0\0\0";

/// The message of a letter: the answer, the answer without its last octet, three records, or no answer.
fn message_of(letter: char) -> &'static [u8] {
    match (letter, ANSWER.split_last()) {
        ('a', _) => ANSWER,
        ('s', Some((_, short))) => short,
        ('o', _) => OPTS,
        _ => NO_ANSWER,
    }
}

/// The letter of a message, how many items come before, the owner and the line of an item, and where it ends.
type Row = (char, usize, &'static [u8], Line, usize);

/// dnspython 2.3.0 reads the same items of the answer. Only the OPT whose octets begin 0, 0, 41 is an EDNS record. A message
/// ends at the first item that is refused: a cookie that is cut short, and an answer that is not there.
const ROWS: [Row; 16] = [
    ('a', 0, ALIAS, ('q', 1, 0), 23),
    ('a', 1, ALIAS, ('a', 5, 300), 61),
    ('a', 2, SINGLE, ('a', 1, 300), 77),
    ('a', 3, b"\0", ('e', 41, 0), 116),
    ('a', 4, b"", ('.', 0, 0), 116),
    ('a', 5, b"", ('.', 0, 0), 116),
    ('o', 0, b"\0", ('r', 1, 60), 15),
    ('o', 1, b"\0", ('r', 41, 0), 27),
    ('o', 2, b"\0", ('e', 41, 0x8000), 38),
    ('o', 3, b"", ('.', 0, 0), 38),
    ('s', 2, SINGLE, ('a', 1, 300), 77),
    ('s', 3, b"", ('!', 0, 0), 77),
    ('s', 4, b"", ('.', 0, 0), 77),
    ('s', 5, b"", ('.', 0, 0), 77),
    ('n', 0, b"", ('!', 0, 0), 0),
    ('n', 1, b"", ('.', 0, 0), 0),
];

/// Those rows.
fn rows() -> &'static [Row] {
    &ROWS
}

#[test]
fn items_are_given_in_order(rt: HostRuntime) {
    for (letter, count, owner, line, end) in rows() {
        let found = line_after(message_of(*letter), *count, owner);
        assert!(rt; found == Some((*line, *end)), "{letter}, item {count}");
    }
}

/// The id, the flags and the counts of a message.
fn header(octets: &[u8]) -> Option<(u16, u16, [u16; 4])> {
    match MessageParser::new(octets) {
        Ok(parser) => {
            let header = parser.header();
            let counts = [
                header.counts.questions.get(),
                header.counts.answers.get(),
                header.counts.authorities.get(),
                header.counts.additional.get(),
            ];
            Some((header.id.get(), header.flags.bits(), counts))
        }
        Err(_) => None,
    }
}

#[test]
fn messages_have_headers(rt: HostRuntime) {
    let wanted = (0x3a4f, 0x8180, [1, 2, 0, 1]);
    holds(&rt, header(ANSWER) == Some(wanted), "the header");
    let short = ANSWER.split_at(11).0;
    holds(&rt, header(short).is_none(), "eleven octets");
}
