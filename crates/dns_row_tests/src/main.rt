//! Answers cases: each line of standard input is a case, and what a library's call on whole texts does for it is printed. A case is a
//! library, a kind, a name and the fields of the kind, with a space between two. A line that begins with a number sign is a comment.
#![tactic(auto)]

mod answers;
mod built_again;
mod canon;
mod fields;
mod generated;
mod hostile;
mod libraries;
mod listed;
mod longer;
mod sorted;
mod texts;

use answers::{Faults, SOUND, answer_over, answer_to, show};
use canon::show_canon;
use fields::{Row, number_of, octets_of};
use libraries::Library;
use listed::show_listed;
use longer::{show_classes, show_longer, show_padded, show_types};
use sorted::show_sorted;
use std::alloc::Global;
use std::io::{self, BufRead, BufReader};
use texts::show_call;

/// Devices of which one fails at a call, or of which the source gives that many octets at a call.
fn faults_of(kind: &str, number: usize) -> Faults {
    let call = number as u64;
    match kind {
        "source" => Faults {
            source: call,
            ..SOUND
        },
        "sink" => Faults {
            sink: call,
            ..SOUND
        },
        "notes" => Faults {
            notes: call,
            ..SOUND
        },
        "source-of-30" => Faults {
            source: call,
            piece: 30,
            ..SOUND
        },
        "sink-of-30" => Faults {
            sink: call,
            piece: 30,
            ..SOUND
        },
        _ => Faults {
            piece: number,
            ..SOUND
        },
    }
}

/// Prints the answer to the words for a text.
fn show_answer(rt: &impl Print, alloc: Global, row: Row<'_>) -> io::Result<()> {
    let text = octets_of(alloc, row.second)?;
    let found = answer_to(alloc, Library::named(row.library), row.first, &text)?;
    show(rt, row.name, &found)
}

/// Prints the answer to the words for a text, over the devices of the row's kind.
fn show_over(rt: &impl Print, alloc: Global, row: Row<'_>) -> io::Result<()> {
    let text = octets_of(alloc, row.second)?;
    let faults = faults_of(row.kind, number_of(row.third));
    let library = Library::named(row.library);
    let found = answer_over(alloc, library, row.first, &text, faults)?;
    show(rt, row.name, &found)
}

/// Prints the answer to the words for a text, and whether the answer to the output is the output.
fn show_twice(rt: &impl Print, alloc: Global, row: Row<'_>) -> io::Result<()> {
    let library = Library::named(row.library);
    let text = octets_of(alloc, row.second)?;
    let found = answer_to(alloc, library, row.first, &text)?;
    let again = answer_to(alloc, library, row.first, &found.output)?;
    show(rt, row.name, &found)?;
    let same = if again.output == found.output {
        "the same"
    } else {
        "another"
    };
    println!(rt; "again: {same}")
}

/// Prints what a row asks for.
fn show_row(rt: &impl Print, alloc: Global, row: Row<'_>) -> io::Result<()> {
    match row.kind {
        "answer" => show_answer(rt, alloc, row),
        "twice" => show_twice(rt, alloc, row),
        "spaces" => show_longer(rt, alloc, row, b' '),
        "zeros" => show_longer(rt, alloc, row, b'0'),
        "padded" => show_padded(rt, alloc, row),
        "listed" => show_listed(rt, alloc, row),
        "sorted" => show_sorted(rt, alloc, row),
        "shortest-types" => show_types(rt, alloc, row),
        "shortest-classes" => show_classes(rt, alloc, row),
        "read" | "digits" | "words" => show_call(rt, alloc, row),
        "source" | "sink" | "notes" | "pieces" => show_over(rt, alloc, row),
        "source-of-30" | "sink-of-30" => show_over(rt, alloc, row),
        _ => show_canon(rt, alloc, row),
    }
}

fn main(rt: HostRuntime) -> io::Result<()> {
    let alloc = rt.alloc();
    for case in BufReader::new(alloc, rt.reader())?.lines(alloc) {
        let case = case?;
        if !case.is_empty() && !case.starts_with('#') {
            show_row(&rt, alloc, Row::of(case.as_str()))?;
        }
    }
    Ok(())
}
