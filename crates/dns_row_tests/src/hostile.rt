//! Messages as a hostile sender makes them: cut anywhere, and with octets that are lengths and pointers where none
//! belong. Each run ends by a status of the message, and a refusal writes nothing.

use crate::canon::canon_answer;
use crate::fields::octets_in;
use std::alloc::{AllocError, Global};
use std::io;

/// Octets that are a root, the longest label's length, the next number, the first of a pointer, and the last one.
const VALUES: [u8; 5] = [0, 63, 64, 192, 255];

/// How `canon` ends for a message.
#[derive(Clone, Copy, PartialEq, Eq)]
enum Ending {
    /// Its lines were written.
    Done,
    /// It is short, and nothing was written.
    Short,
    /// An item is refused, and nothing was written.
    Item,
    /// Anything else.
    Other,
}

/// How a run ended that wrote this number of octets.
fn ending_by(status: &str, written: usize) -> Ending {
    if status == "Done, 0" {
        Ending::Done
    } else if status == "Short { message: 0 }, 1" && written == 0 {
        Ending::Short
    } else if status.starts_with("Item { message: 0, ") && written == 0 {
        Ending::Item
    } else {
        Ending::Other
    }
}

/// How `canon` ends for the octets of a message.
fn ending_of(alloc: Global, message: &[u8]) -> Result<Ending, AllocError> {
    let text = hex::encode(alloc, message)?;
    let found = canon_answer(alloc, "canon", text.as_bytes())?;
    Ok(ending_by(found.status.as_str(), found.output.len()))
}

/// How many of the values, set at a place, end a run otherwise than by a status of the message.
fn others_at(alloc: Global, message: &mut [u8], place: usize) -> Result<usize, AllocError> {
    let mut others = 0usize;
    for value in VALUES {
        if let Some(octet) = message.get_mut(place) {
            *octet = value;
        }
        if ending_of(alloc, message)? == Ending::Other {
            others = others.saturating_add(1);
        }
    }
    Ok(others)
}

/// How many runs end otherwise of those for a message with one octet set.
fn others_with_octets_set(alloc: Global, whole: &[u8]) -> Result<usize, AllocError> {
    let mut others = 0usize;
    for place in 0..whole.len() {
        let mut message = Vec::from_slice(alloc, whole)?;
        others = others.saturating_add(others_at(alloc, &mut message, place)?);
    }
    Ok(others)
}

/// Prints how many messages with an octet set there are, and how many of them end otherwise.
pub(crate) fn show_octets_set(
    rt: &impl Print,
    alloc: Global,
    name: &str,
    text: &str,
) -> io::Result<()> {
    let whole = octets_in(alloc, text)?;
    let others = others_with_octets_set(alloc, &whole)?;
    let tried = whole.len().saturating_mul(VALUES.len());
    println!(rt; "{name}: {tried} messages with an octet set, {others} of them end otherwise")
}

/// How a message of this many octets ends that is cut before the end of its last item.
fn cut_ending(octets: usize) -> Ending {
    if octets < 12 {
        Ending::Short
    } else {
        Ending::Item
    }
}

/// How many runs end otherwise of those for a message that is cut before each of its octets.
fn others_cut(alloc: Global, whole: &[u8]) -> Result<usize, AllocError> {
    let mut others = 0usize;
    for end in 0..whole.len() {
        if ending_of(alloc, &whole[..end])? != cut_ending(end) {
            others = others.saturating_add(1);
        }
    }
    Ok(others)
}

/// Prints how many messages cut short there are, how many of them end otherwise, and whether the whole one is read.
pub(crate) fn show_cut(rt: &impl Print, alloc: Global, name: &str, text: &str) -> io::Result<()> {
    let whole = octets_in(alloc, text)?;
    let others = others_cut(alloc, &whole)?;
    let is_read = ending_of(alloc, &whole)? == Ending::Done;
    let cuts = whole.len();
    println!(rt;
        "{name}: {cuts} messages cut short, {others} of them end otherwise; whole: {is_read}"
    )
}
