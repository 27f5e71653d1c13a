//! The fields of a row.

use std::alloc::{AllocError, Global};

/// A row: a library, a kind, a name, and the fields of the kind. A field that the row lacks is empty.
#[derive(Clone, Copy)]
pub(crate) struct Row<'a> {
    pub(crate) library: &'a str,
    pub(crate) kind: &'a str,
    pub(crate) name: &'a str,
    pub(crate) first: &'a str,
    pub(crate) second: &'a str,
    pub(crate) third: &'a str,
    pub(crate) fourth: &'a str,
}

impl<'a> Row<'a> {
    /// The row of a line, in which a space is between two fields.
    pub(crate) fn of(line: &'a str) -> Row<'a> {
        let mut fields = line.split(' ');
        Row {
            library: fields.next().unwrap_or(""),
            kind: fields.next().unwrap_or(""),
            name: fields.next().unwrap_or(""),
            first: fields.next().unwrap_or(""),
            second: fields.next().unwrap_or(""),
            third: fields.next().unwrap_or(""),
            fourth: fields.next().unwrap_or(""),
        }
    }
}

/// The octet that a letter after a backslash represents.
fn escaped(letter: u8) -> u8 {
    match letter {
        b'n' => b'\n',
        b'r' => b'\r',
        b't' => b'\t',
        b's' => b' ',
        _ => letter,
    }
}

/// The octets that a field represents: `\n`, `\r`, `\t` and `\s` are LF, CR, a tab and a space.
pub(crate) fn octets_of(alloc: Global, field: &str) -> Result<Vec<u8>, AllocError> {
    let mut octets = Vec::new(alloc);
    let mut after_backslash = false;
    for octet in field.as_bytes() {
        if after_backslash {
            octets.push(escaped(*octet))?;
            after_backslash = false;
        } else if *octet == b'\\' {
            after_backslash = true;
        } else {
            octets.push(*octet)?;
        }
    }
    Ok(octets)
}

/// The word that a part of a field represents.
fn word_of(alloc: Global, part: &str) -> Result<String, AllocError> {
    let octets = octets_of(alloc, part)?;
    String::from_utf8_lossy(alloc, &octets)
}

/// The words of a command line, between commas; a hyphen means none.
pub(crate) fn words_of(alloc: Global, field: &str) -> Result<Vec<String>, AllocError> {
    let mut words = Vec::new(alloc);
    if field != "-" {
        for part in field.split(',') {
            words.push(word_of(alloc, part)?)?;
        }
    }
    Ok(words)
}

/// The number that a field has in decimal digits; 0 if it has none.
pub(crate) fn number_of(field: &str) -> usize {
    field.parse::<usize>().unwrap_or(0)
}

/// The octets that a field spells in hexadecimal; empty if it spells none.
pub(crate) fn octets_in(alloc: Global, field: &str) -> Result<Vec<u8>, AllocError> {
    match hex::decode(alloc, field) {
        Ok(octets) => Ok(octets),
        Err(_) => Ok(Vec::new(alloc)),
    }
}
