//! Rows of `dns_canon::run` alone.

use crate::answers::{Answer, answer_to, show};
use crate::built_again::show_built_again;
use crate::fields::{Row, number_of};
use crate::generated::{show_generated, show_limit};
use crate::hostile::{show_cut, show_octets_set};
use crate::libraries::Library;
use std::alloc::{AllocError, Global};
use std::io;

/// The answer of a command to a text.
pub(crate) fn canon_answer(
    alloc: Global,
    command: &str,
    text: &[u8],
) -> Result<Answer, AllocError> {
    answer_to(alloc, Library::Canon, command, text)
}

/// Prints the answer of `same` to two messages.
fn show_same(
    rt: &impl Print,
    alloc: Global,
    name: &str,
    first: &str,
    second: &str,
) -> io::Result<()> {
    let text = format!(in alloc; "{first}\n{second}")?;
    let found = canon_answer(alloc, "same", text.as_bytes())?;
    show(rt, name, &found)
}

/// Prints the answers of `same` to two messages, one after the other and the other way round.
fn show_pair(rt: &impl Print, alloc: Global, row: Row<'_>) -> io::Result<()> {
    show_same(rt, alloc, row.name, row.first, row.second)?;
    show_same(rt, alloc, "the other way round", row.second, row.first)
}

/// Prints what a row asks for.
pub(crate) fn show_canon(rt: &impl Print, alloc: Global, row: Row<'_>) -> io::Result<()> {
    let number = number_of(row.third);
    match row.kind {
        "pair" => show_pair(rt, alloc, row),
        "built-again" => show_built_again(rt, alloc, row.name, row.first),
        "limit" => show_limit(rt, alloc, row.name, row.first, (row.second, number)),
        "generated" => {
            let counts = (number_of(row.second), number);
            show_generated(rt, alloc, row.name, row.first, counts)
        }
        "octets-set" => show_octets_set(rt, alloc, row.name, row.first),
        "cut" => show_cut(rt, alloc, row.name, row.first),
        _ => println!(rt; "{}: no kind of row", row.name),
    }
}
