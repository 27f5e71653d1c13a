//! Texts that are made longer.

use crate::answers::{Answer, answer_to, show, show_starts};
use crate::fields::{Row, number_of, octets_of};
use crate::libraries::Library;
use std::alloc::{AllocError, Global};
use std::io;

/// Records as short as records are, of the root and without data, whose type or class is counted from a number on.
#[derive(Clone, Copy)]
struct Shortest {
    first: u16,
    before: &'static [u8],
    after: &'static [u8],
}

/// One of each type from 1,000 on, class IN.
const BY_TYPES: Shortest = Shortest {
    first: 1000,
    before: b"00",
    after: b"0001000000000000",
};

/// Type 65,280, one of each class from 0 on.
const BY_CLASSES: Shortest = Shortest {
    first: 0,
    before: b"00ff00",
    after: b"000000000000",
};

/// A text with that many records after it.
fn with_shortest(
    alloc: Global,
    text: &str,
    records: Shortest,
    count: u16,
) -> Result<Vec<u8>, AllocError> {
    let mut octets = octets_of(alloc, text)?;
    for index in 0..count {
        let number = index.wrapping_add(records.first);
        octets.extend_from_slice(records.before)?;
        octets.extend_from_slice(hex::encode(alloc, &number.to_be_bytes())?.as_bytes())?;
        octets.extend_from_slice(records.after)?;
    }
    Ok(octets)
}

/// The answer to the words for a text with that many of the shortest records after it.
fn shortest_answer(alloc: Global, row: Row<'_>, records: Shortest) -> Result<Answer, AllocError> {
    let count = (number_of(row.third) % 65_536) as u16;
    let text = with_shortest(alloc, row.second, records, count)?;
    answer_to(alloc, Library::named(row.library), row.first, &text)
}

/// Prints the answer to the words for a text with that many records after it: the root, one of each type from 1,000 on, class IN.
pub(crate) fn show_types(rt: &impl Print, alloc: Global, row: Row<'_>) -> io::Result<()> {
    let found = shortest_answer(alloc, row, BY_TYPES)?;
    show(rt, row.name, &found)
}

/// Prints the start of the answer to the words for a text with that many records after it: the root, type 65,280, one of each class from
/// 0 on.
pub(crate) fn show_classes(rt: &impl Print, alloc: Global, row: Row<'_>) -> io::Result<()> {
    let found = shortest_answer(alloc, row, BY_CLASSES)?;
    show_starts(rt, row.name, &found)
}

/// A text with an octet after it that many times, and a second text after these.
fn longer(
    alloc: Global,
    text: &str,
    octet: u8,
    count: usize,
    after: &str,
) -> Result<Vec<u8>, AllocError> {
    let mut octets = octets_of(alloc, text)?;
    for _more in 0..count {
        octets.push(octet)?;
    }
    octets.extend_from_slice(&octets_of(alloc, after)?)?;
    Ok(octets)
}

/// Prints the start of the answer to the words for a text with an octet after it that many times, and a second text.
pub(crate) fn show_longer(
    rt: &impl Print,
    alloc: Global,
    row: Row<'_>,
    octet: u8,
) -> io::Result<()> {
    let text = longer(alloc, row.second, octet, number_of(row.third), row.fourth)?;
    let found = answer_to(alloc, Library::named(row.library), row.first, &text)?;
    show_starts(rt, row.name, &found)
}

/// A text with spaces after it, up to this number of octets.
fn padded(alloc: Global, text: &str, count: usize) -> Result<Vec<u8>, AllocError> {
    let mut octets = octets_of(alloc, text)?;
    for _missing in octets.len()..count {
        octets.push(b' ')?;
    }
    Ok(octets)
}

/// Prints the answer to the words for a text with spaces after it, up to this number of octets.
pub(crate) fn show_padded(rt: &impl Print, alloc: Global, row: Row<'_>) -> io::Result<()> {
    let text = padded(alloc, row.second, number_of(row.third))?;
    let found = answer_to(alloc, Library::named(row.library), row.first, &text)?;
    show(rt, row.name, &found)
}
