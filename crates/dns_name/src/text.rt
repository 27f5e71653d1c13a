//! Names as text (RFC 1035 section 5.1).

ghost use Rattle.std.specs.Prelude.{◌≡◌, ◌∷◌, Some, MatchOption};
ghost use Rattle.dns_wire.specs.Names.{name_labels};
ghost use Rattle.dns_label.specs.Text.{GivesResult};
ghost use Rattle.dns_name.specs.Text.{NoDot, dot_octet, label_prefix, of_prefix, parsed_name, name_scan, shown_name, split_name};

use crate::labels_buf::LabelsBuf;
use crate::name::Name;
use crate::name_buf::NameBuf;
use crate::rev_name_buf::RevNameBuf;
use crate::text_error::{NameParseError, NameSplitError};
use dns_label::{LabelBuf, LabelIter};
use std::fmt;
use std::str::FromStr;

impl NameBuf {
    /// Reads the name that the whole text spells: labels that a dot follows each; the empty text is the root.
    /// Each error comes exactly if its fault is the first one from the left.
    pub fn parse_str(s: &[u8]) -> Result<NameBuf, NameParseError>
        ensures { result ≡ parsed_name s.now }
    {
        let prefix = scan(s)?;
        if !prefix.labels.fit(&prefix.last) {
            return Err(NameParseError::Overlong);
        }
        if !prefix.rest.is_empty() {
            return Err(NameParseError::InvalidChar);
        }
        if !prefix.last.as_label().is_root() {
            return Err(NameParseError::Relative);
        }
        Ok(prefix.labels.into_name())
    }

    /// Reads the name at the start of the text, and gives the text after it, which begins with an octet
    /// that no text of a name has. Each error comes exactly if its fault is the first one from the left.
    pub fn split_str(s: &[u8]) -> Result<(NameBuf, &[u8]), NameSplitError>
        ensures { GivesResult (λ x. (x.0, x.1.now)) result (split_name s.now) }
    {
        let prefix = match scan(s) {
            Ok(prefix) => prefix,
            Err(error) => return Err(of_prefix(error)),
        };
        if prefix.rest.is_empty() {
            return Err(NameSplitError::ShortInput);
        }
        if !prefix.labels.fit(&prefix.last) {
            return Err(NameSplitError::Overlong);
        }
        if !prefix.last.as_label().is_root() {
            return Err(NameSplitError::Relative);
        }
        Ok((prefix.labels.into_name(), prefix.rest))
    }
}

impl RevNameBuf {
    /// Reads the name that the whole text spells, as `NameBuf::parse_str` does.
    pub fn parse_str(s: &[u8]) -> Result<RevNameBuf, NameParseError>
        ensures { result ≡ parsed_name s.now }
    {
        let name = NameBuf::parse_str(s)?;
        Ok(RevNameBuf::from(name))
    }

    /// Reads the name at the start of the text, and gives the text after it, as `NameBuf::split_str` does.
    pub fn split_str(s: &[u8]) -> Result<(RevNameBuf, &[u8]), NameSplitError>
        ensures { GivesResult (λ x. (x.0, x.1.now)) result (split_name s.now) }
    {
        let (name, rest) = NameBuf::split_str(s)?;
        Ok((RevNameBuf::from(name), rest))
    }
}

impl FromStr for NameBuf {
    type Err = NameParseError;

    ghost from_str_gives = { λ text result. result ≡ parsed_name text };

    /// Reads the name that the whole text spells, as `parse_str` does.
    fn from_str(s: &str) -> Result<NameBuf, NameParseError> {
        NameBuf::parse_str(s.as_bytes())
    }
}

impl FromStr for RevNameBuf {
    type Err = NameParseError;

    ghost from_str_gives = { λ text result. result ≡ parsed_name text };

    /// Reads the name that the whole text spells, as `parse_str` does.
    fn from_str(s: &str) -> Result<RevNameBuf, NameParseError> {
        RevNameBuf::parse_str(s.as_bytes())
    }
}

/// What is read of a text: labels that a dot follows each, the label after them, and the text after that.
#[derive(Drop)]
struct Prefix<'a> {
    labels: LabelsBuf,
    last: LabelBuf,
    rest: &'a [u8],
}

/// Scans a name from the left, up to the end of the text or to an octet that no text of a name has.
fn scan(text: &[u8]) -> Result<Prefix<'_>, NameParseError>
    ensures { GivesResult (λ x. (x.labels, (x.last, x.rest.now))) result (name_scan text.now) }
{
    let mut labels = LabelsBuf::new();
    let mut rest = text;
    loop {
        let (last, trailing) = label_at(rest)?;
        let Some(next) = following_dot(trailing) else {
            return Ok(Prefix {
                labels,
                last,
                rest: trailing,
            });
        };
        if !labels.fit(&last) {
            return Err(NameParseError::Overlong);
        }
        if last.as_label().is_root() {
            return Err(NameParseError::EmptyLabel);
        }
        labels.push(&last);
        rest = next;
    }
}

/// Reads the label at the start of the text, which the end of the text ends too, and gives the text after
/// it.
fn label_at(text: &[u8]) -> Result<(LabelBuf, &[u8]), NameParseError>
    ensures { GivesResult (λ x. (x.0, x.1.now)) result (label_prefix text.now) }
{
    match LabelBuf::split_str(text) {
        Ok(prefix) => Ok(prefix),
        Err(_) => Ok((LabelBuf::parse_str(text)?, &[])),
    }
}

/// The text after the dot that comes before it; `None` if none does.
fn following_dot(text: &[u8]) -> Option<&[u8]>
    ensures { MatchOption result (NoDot text.now) (λ rest. text.now ≡ dot_octet ∷ rest.now) }
{
    match text.split_first() {
        Some((b'.', rest)) => Some(rest),
        _ => None,
    }
}

/// The error of a prefix of a text, if the whole text has this one.
fn of_prefix(error: NameParseError) -> NameSplitError
    ensures { result ≡ of_prefix error }
{
    match error {
        NameParseError::Overlong => NameSplitError::Overlong,
        NameParseError::Relative => NameSplitError::Relative,
        NameParseError::EmptyLabel => NameSplitError::EmptyLabel,
        NameParseError::OverlongLabel => NameSplitError::OverlongLabel,
        NameParseError::InvalidChar => NameSplitError::InvalidChar,
        NameParseError::PartialEscape => NameSplitError::ShortInput,
        NameParseError::InvalidEscape => NameSplitError::InvalidEscape,
    }
}

impl fmt::Display for Name<'_> {
    ghost output = { λ v. Some (shown_name (name_labels v.slice.now)) };

    /// Prints each label and a dot after it; nothing for the root.
    fn fmt<W: fmt::Write>(&self, f: &mut fmt::Formatter<W>) -> fmt::Result {
        for label in LabelIter::new(self.relative().slice) {
            write!(f, "{label}.")?;
        }
        Ok(())
    }
}

impl fmt::Display for NameBuf {
    ghost output = { λ v. Some (shown_name v) };

    /// Prints the name as its view prints.
    fn fmt<W: fmt::Write>(&self, f: &mut fmt::Formatter<W>) -> fmt::Result {
        fmt::Display::fmt(&self.as_name(), f)
    }
}
