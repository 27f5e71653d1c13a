//! Texts that are made by a rule.

use crate::answers::{Answer, show, show_status};
use crate::canon::canon_answer;
use std::alloc::{AllocError, Global};
use std::io;

/// What an A record has after its owner.
const ADDRESS: &[u8] = b"\0\x01\0\x01\0\0\0\0\0\x04\xc0\0\x02\x01";

/// An A record of the root, in canonical octets.
const ROOT_ADDRESS: &[u8] = b"\0\0\x01\0\x01\0\0\0\0\0\x04\xc0\0\x02\x01";

/// A text, and the lines that are written for it.
#[derive(Drop)]
struct Generated {
    text: Vec<u8>,
    lines: Vec<u8>,
}

/// Appends a line of octets in hexadecimal.
fn append_line(alloc: Global, lines: &mut Vec<u8>, octets: &[u8]) -> Result<(), AllocError> {
    lines.extend_from_slice(hex::encode(alloc, octets)?.as_bytes())?;
    lines.push(b'\n')?;
    Ok(())
}

/// The number, if two octets hold it.
fn in_two_octets(number: usize) -> u16 {
    u16::try_from(number).unwrap_or(u16::MAX)
}

/// Appends a number in two octets.
fn append_number(octets: &mut Vec<u8>, number: u16) -> Result<(), AllocError> {
    octets.extend_from_slice(&number.to_be_bytes())
}

/// The header of a message with this number of answers.
fn header(alloc: Global, answers: u16) -> Result<Vec<u8>, AllocError> {
    let mut octets = Vec::from_slice(alloc, b"\x12\x34\x81\x80\0\0")?;
    append_number(&mut octets, answers)?;
    octets.extend_from_slice(b"\0\0\0\0")?;
    Ok(octets)
}

/// A record of type 65280 at the root with these data.
fn private_record(alloc: Global, data: &[u8]) -> Result<Vec<u8>, AllocError> {
    let mut octets = Vec::from_slice(alloc, b"\0\xff\0\0\x01\0\0\0\0")?;
    append_number(&mut octets, in_two_octets(data.len()))?;
    octets.extend_from_slice(data)?;
    Ok(octets)
}

/// A root at offset 23 of a message, and pointers after it, each to the one before it and the first to the root.
fn pointers(alloc: Global, count: u16) -> Result<Vec<u8>, AllocError> {
    let mut data = vec![in alloc; 0u8; 1]?;
    let mut target = 23u16;
    for index in 0..count {
        append_number(&mut data, 0xc000 | target)?;
        target = index.wrapping_mul(2).wrapping_add(24);
    }
    Ok(data)
}

/// Data that are a chain of pointers, and A records whose owners lead to the last of them, and so are the root: they are alike.
fn chain_of_pointers(alloc: Global, count: u16, records: u16) -> Result<Generated, AllocError> {
    let data = private_record(alloc, &pointers(alloc, count)?)?;
    let owner = 0xc000 | count.wrapping_mul(2).wrapping_add(22);
    let mut message = header(alloc, records.saturating_add(1))?;
    message.extend_from_slice(&data)?;
    for _ in 0..records {
        append_number(&mut message, owner)?;
        message.extend_from_slice(ADDRESS)?;
    }
    let mut lines = Vec::new(alloc);
    append_line(alloc, &mut lines, ROOT_ADDRESS)?;
    append_line(alloc, &mut lines, &data)?;
    let text = hex::encode(alloc, &message)?.into_bytes();
    Ok(Generated { text, lines })
}

/// Appends an A record of `a.` with this TTL, in canonical octets.
fn append_address(octets: &mut Vec<u8>, ttl: u16) -> Result<(), AllocError> {
    octets.extend_from_slice(b"\x01a\0\0\x01\0\x01\0\0")?;
    append_number(octets, ttl)?;
    octets.extend_from_slice(b"\0\x04\xc0\0\x02\x01")
}

/// Records that are alike, the TTL of each by a step above that of the one before it, modulo 1009.
fn alike_records(alloc: Global, step: u16, records: u16) -> Result<Generated, AllocError> {
    let mut message = header(alloc, records)?;
    let mut ttl = 0u16;
    let mut least = u16::MAX;
    for _ in 0..records {
        ttl = ttl.wrapping_add(step) % 1009;
        least = least.min(ttl);
        append_address(&mut message, ttl)?;
    }
    let mut record = Vec::new(alloc);
    append_address(&mut record, least)?;
    let mut lines = Vec::new(alloc);
    append_line(alloc, &mut lines, &record)?;
    let text = hex::encode(alloc, &message)?.into_bytes();
    Ok(Generated { text, lines })
}

/// Appends a record of the root without data, of this type: no record is shorter.
fn append_shortest(octets: &mut Vec<u8>, rtype: u16) -> Result<(), AllocError> {
    octets.push(0)?;
    append_number(octets, rtype)?;
    octets.extend_from_slice(b"\0\x01\0\0\0\0\0\0")
}

/// The shortest records, one of each type above this one, the greatest type first.
fn shortest_records(alloc: Global, first: u16, records: u16) -> Result<Generated, AllocError> {
    let mut message = header(alloc, records)?;
    let mut lines = Vec::new(alloc);
    for index in 0..records {
        append_shortest(
            &mut message,
            first.wrapping_add(records).wrapping_sub(index),
        )?;
        let mut record = Vec::new(alloc);
        append_shortest(&mut record, first.wrapping_add(index).wrapping_add(1))?;
        append_line(alloc, &mut lines, &record)?;
    }
    let text = hex::encode(alloc, &message)?.into_bytes();
    Ok(Generated { text, lines })
}

/// Appends a label.
fn append_label(name: &mut Vec<u8>, label: &[u8]) -> Result<(), AllocError> {
    let [.., size] = label.len().to_be_bytes();
    name.push(size)?;
    name.extend_from_slice(label)
}

/// The longest name, labels of 63, 63, 63 and 61 of this letter.
fn longest_name(alloc: Global, letter: u8) -> Result<Vec<u8>, AllocError> {
    let mut name = Vec::new(alloc);
    append_label(&mut name, &[letter; 63])?;
    append_label(&mut name, &[letter; 63])?;
    append_label(&mut name, &[letter; 63])?;
    append_label(&mut name, &[letter; 61])?;
    name.push(0)?;
    Ok(name)
}

/// An MX record of the longest name, in canonical octets.
fn longest_exchange(alloc: Global) -> Result<Vec<u8>, AllocError> {
    let name = longest_name(alloc, b'a')?;
    let mut octets = Vec::from_slice(alloc, &name)?;
    octets.extend_from_slice(b"\0\x0f\0\x01\0\0\0\0\x01\x01\0\x0a")?;
    octets.extend_from_slice(&name)?;
    Ok(octets)
}

/// Data of the longest name and twenty pointers to it, and twenty MX records whose owners and exchanges lead to it by
/// one of these pointers: they are alike.
fn fan_of_pointers(alloc: Global) -> Result<Generated, AllocError> {
    let mut data = longest_name(alloc, b'A')?;
    for _ in 0..20u8 {
        data.extend_from_slice(b"\xc0\x17")?;
    }
    let record = private_record(alloc, &data)?;
    let mut message = header(alloc, 21)?;
    message.extend_from_slice(&record)?;
    for step in 0..20u16 {
        append_number(&mut message, 0xc116 + 2 * step)?;
        message.extend_from_slice(b"\0\x0f\0\x01\0\0\0\0\0\x04\0\x0a")?;
        append_number(&mut message, 0xc13c - 2 * step)?;
    }
    let mut lines = Vec::new(alloc);
    append_line(alloc, &mut lines, &record)?;
    append_line(alloc, &mut lines, &longest_exchange(alloc)?)?;
    let text = hex::encode(alloc, &message)?.into_bytes();
    Ok(Generated { text, lines })
}

/// The text of a rule, and its lines.
fn by_rule(alloc: Global, rule: &str, count: u16, records: u16) -> Result<Generated, AllocError> {
    match rule {
        "chain-of-pointers" => chain_of_pointers(alloc, count, records),
        "alike-records" => alike_records(alloc, count, records),
        "shortest-records" => shortest_records(alloc, count, records),
        _ => fan_of_pointers(alloc),
    }
}

/// Prints how an answer ends, and whether its lines are those of the rule.
fn show_comparison(
    rt: &impl Print,
    name: &str,
    made: &Generated,
    found: &Answer,
) -> io::Result<()> {
    let (text, output) = (made.text.len(), found.output.len());
    let outcome = if found.output == made.lines {
        "those of the rule"
    } else {
        "others"
    };
    show_status(rt, name, found)?;
    println!(rt; "a text of {text} digits, and lines of {output} octets: {outcome}")
}

/// Prints the answer of `same` to a text and itself.
fn show_with_itself(rt: &impl Print, alloc: Global, text: &[u8]) -> io::Result<()> {
    let mut twice = Vec::from_slice(alloc, text)?;
    twice.push(b'\n')?;
    twice.extend_from_slice(text)?;
    let found = canon_answer(alloc, "same", &twice)?;
    show(rt, "with itself", &found)
}

/// Prints the answer of `canon` to the text of a rule, whether its lines are those of the rule, and the answer of `same` to
/// the text and itself.
pub(crate) fn show_generated(
    rt: &impl Print,
    alloc: Global,
    name: &str,
    rule: &str,
    (count, records): (usize, usize),
) -> io::Result<()> {
    let made = by_rule(alloc, rule, in_two_octets(count), in_two_octets(records))?;
    let found = canon_answer(alloc, "canon", &made.text)?;
    show_comparison(rt, name, &made, &found)?;
    show_with_itself(rt, alloc, &made.text)
}

/// A text of this many octets: digits 0 alone, or a header of them, CR and LF, and digits 0.
fn digits_by_rule(alloc: Global, rule: &str, count: usize) -> Result<Vec<u8>, AllocError> {
    let mut text = Vec::new(alloc);
    if rule == "header-and-zeros" {
        text.extend_from_slice(b"000000000000000000000000\r\n")?;
    }
    let digits = vec![in alloc; b'0'; count.saturating_sub(text.len())]?;
    text.extend_from_slice(&digits)?;
    Ok(text)
}

/// Prints the answer to a word for a text of this many octets.
pub(crate) fn show_limit(
    rt: &impl Print,
    alloc: Global,
    name: &str,
    word: &str,
    (rule, count): (&str, usize),
) -> io::Result<()> {
    let text = digits_by_rule(alloc, rule, count)?;
    let found = canon_answer(alloc, word, &text)?;
    show(rt, name, &found)
}
