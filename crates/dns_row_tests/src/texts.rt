//! Rows of the calls of `dns_text`.

use crate::fields::{Row, number_of, words_of};
use dns_text::{Args, PlainSource, octets_of, read_text};
use std::alloc::Global;
use std::io;

/// Prints how many octets are read of a text, up to a limit, or why it is not read.
fn show_read(
    rt: &impl Print,
    alloc: Global,
    name: &str,
    limit: usize,
    text: &str,
) -> io::Result<()> {
    match read_text(alloc, &mut PlainSource::new(text.as_bytes()), limit) {
        Ok(read) => println!(rt; "{name}: {} octets", read.len()),
        Err(error) => println!(rt; "{name}: {error:?}"),
    }
}

/// Prints the octets that a text spells, as numbers, or why it spells none.
fn show_octets(rt: &impl Print, alloc: Global, name: &str, text: &str) -> io::Result<()> {
    match octets_of(alloc, text.as_bytes()) {
        Ok(octets) => println!(rt; "{name}: {octets:?}"),
        Err(error) => println!(rt; "{name}: {error:?}"),
    }
}

/// Prints how many words there are, the first of them, and whether one is after the last.
fn show_words(rt: &impl Print, name: &str, words: &Args) -> io::Result<()> {
    let after = words.get(words.len());
    println!(rt; "{name}: {}, {:?}, {after:?}", words.len(), words.get(0))
}

/// Prints what a call gives for the row's fields.
pub(crate) fn show_call(rt: &impl Print, alloc: Global, row: Row<'_>) -> io::Result<()> {
    match row.kind {
        "read" => show_read(rt, alloc, row.name, number_of(row.first), row.second),
        "digits" => show_octets(rt, alloc, row.name, row.first),
        _ => show_words(rt, row.name, &Args::new(words_of(alloc, row.first)?)),
    }
}
