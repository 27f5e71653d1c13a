//! Rows of zones that are read from the lines of their sorted records.

use crate::fields::{Row, octets_of};
use dns_name::RevNameBuf;
use dns_record_lines::RecordLineReader;
use dns_zonemd::{LineRefusal, SortedZone};
use std::alloc::{AllocError, Global};
use std::io;

/// What the lines of a text come to: what is printed for them, the number of the line that is refused, from 1, and why, or that no SOA record is
/// there.
enum Ending {
    Report(Vec<u8>),
    Refused(u64, LineRefusal),
    NoSoa,
}

/// Adds the lines of a text, each of which ends at LF, to a zone, and gives the number of the first that is refused, from 1, and why.
fn first_refused(alloc: Global, zone: &mut SortedZone, text: &[u8]) -> Option<(u64, LineRefusal)> {
    let mut reader = RecordLineReader::new(alloc);
    let mut number = 0u64;
    if text.is_empty() {
        return None;
    }
    for line in text[..text.len() - 1].split(|octet| *octet == b'\n') {
        number = number.saturating_add(1);
        if let Err(refusal) = zone.add_line(&mut reader, line) {
            return Some((number, refusal));
        }
    }
    None
}

/// Reads the lines of a text.
fn read_lines(alloc: Global, apex: RevNameBuf, text: &[u8]) -> Result<Ending, AllocError> {
    let mut zone = SortedZone::new(alloc, apex);
    if let Some((number, refusal)) = first_refused(alloc, &mut zone, text) {
        return Ok(Ending::Refused(number, refusal));
    }
    match zone.into_report(alloc)? {
        Some(report) => Ok(Ending::Report(report)),
        None => Ok(Ending::NoSoa),
    }
}

/// Prints what the lines of a text come to.
pub(crate) fn show_sorted(rt: &impl Print, alloc: Global, row: Row<'_>) -> io::Result<()> {
    let Ok(apex) = RevNameBuf::parse_str(row.first.as_bytes()) else {
        return println!(rt; "{}: no apex", row.name);
    };
    let text = octets_of(alloc, row.second)?;
    match read_lines(alloc, apex, &text)? {
        Ending::Report(report) => {
            println!(rt; "{}:", row.name)?;
            print!(rt; "{}", str::from_utf8(&report).unwrap_or("?"))
        }
        Ending::Refused(line, refusal) => println!(rt; "{}: line {line} {refusal:?}", row.name),
        Ending::NoSoa => println!(rt; "{}: no soa", row.name),
    }
}
