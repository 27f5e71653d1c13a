//! Messages whose items are read and built again with names compressed.

use crate::answers::{Answer, show};
use crate::canon::canon_answer;
use crate::fields::octets_in;
use dns_message::{HeaderFlags, MessageBuilder, MessageItem, MessageParser, ParsedMessageItem};
use dns_num::U16;
use dns_wire::NameCompressor;
use std::alloc::{AllocError, Global};
use std::io;

/// The most octets of a message.
const LARGEST: usize = 65_535;

/// Pushes an answer or a record on authorities in its section; whether it was taken.
fn push_record(builder: &mut MessageBuilder<'_>, item: &ParsedMessageItem<'_>) -> bool {
    match item {
        MessageItem::Answer(record) => builder.push_answer(record).is_ok(),
        MessageItem::Authority(record) => builder.push_authority(record).is_ok(),
        _ => false,
    }
}

/// Pushes an additional record; whether it was taken.
fn push_additional(builder: &mut MessageBuilder<'_>, item: &ParsedMessageItem<'_>) -> bool {
    match item {
        MessageItem::Additional(record) => builder.push_additional(record).is_ok(),
        MessageItem::Edns(record) => builder.push_edns(record).is_ok(),
        _ => false,
    }
}

/// Pushes an item in its section; whether it was taken.
fn push_item(builder: &mut MessageBuilder<'_>, item: &ParsedMessageItem<'_>) -> bool {
    match item {
        MessageItem::Question(question) => builder.push_question(question).is_ok(),
        MessageItem::Answer(_) | MessageItem::Authority(_) => push_record(builder, item),
        MessageItem::Additional(_) | MessageItem::Edns(_) => push_additional(builder, item),
    }
}

/// Pushes each item of a message; whether all were read and taken.
fn push_items(builder: &mut MessageBuilder<'_>, message: &[u8]) -> bool {
    let Ok(items) = MessageParser::new(message) else {
        return false;
    };
    for item in items {
        let Ok(item) = item else {
            return false;
        };
        if !push_item(builder, &item) {
            return false;
        }
    }
    true
}

/// The message of the items of another, in hexadecimal; empty if they are refused.
fn built_again(alloc: Global, message: &[u8]) -> Result<String, AllocError> {
    let mut buffer = vec![in alloc; 0u8; LARGEST]?;
    let mut names = NameCompressor::new();
    let flags = HeaderFlags::default();
    let mut builder = MessageBuilder::new(&mut buffer, &mut names, U16::new(0), flags);
    if !push_items(&mut builder, message) {
        return Ok(String::new(alloc));
    }
    hex::encode(alloc, builder.message().as_bytes())
}

/// The answer of `canon` to the message that is built from the items of a text.
fn answer_again(alloc: Global, text: &str) -> Result<Answer, AllocError> {
    let octets = octets_in(alloc, text)?;
    let built = built_again(alloc, &octets)?;
    canon_answer(alloc, "canon", built.as_bytes())
}

/// Prints the answer of `canon` to a message, and whether its items, built again, have the same lines.
pub(crate) fn show_built_again(
    rt: &impl Print,
    alloc: Global,
    name: &str,
    text: &str,
) -> io::Result<()> {
    let found = canon_answer(alloc, "canon", text.as_bytes())?;
    let again = answer_again(alloc, text)?;
    show(rt, name, &found)?;
    if again.status == found.status && again.output == found.output {
        println!(rt; "built again: the same")
    } else {
        show(rt, "built again", &again)
    }
}
