//! Labels as text (RFC 1035 section 5.1).

ghost use Rattle.std.specs.Prelude.{◌≡◌, ◌<◌, Some, option_map};
ghost use Rattle.std.specs.Char.{IsAsciiDigit};
ghost use Rattle.dns_label.specs.Labels.{contents_of};
ghost use Rattle.dns_label.specs.Text.{GivesResult, is_unescaped, three_digits, shown_octet, shown_label, escaped, in_digits, next_octet, label_scan, parsed_label, split_label};

use crate::label::Label;
use crate::label_buf::LabelBuf;
use crate::text_error::{LabelParseError, LabelSplitError, ScanFault};
use std::fmt;
use std::str::FromStr;

/// The marks that represent themselves, as letters and digits do.
const MARKS: &[u8] = b"!#$%&'*+,-^_`{|}~";

/// Whether the octet is printed as it is, and represents itself in a text.
fn is_unescaped(octet: u8) -> bool
    ensures { result ≡ is_unescaped octet }
{
    octet.is_ascii_alphanumeric() || MARKS.contains(&octet)
}

impl LabelBuf {
    /// Reads the label that the whole text spells. Each error comes exactly if its fault is the first
    /// one from the left.
    pub fn parse_str(s: &[u8]) -> Result<LabelBuf, LabelParseError>
        ensures { result ≡ parsed_label s.now }
    {
        let (label, rest) = scan(s)?;
        if !rest.is_empty() {
            return Err(LabelParseError::InvalidChar);
        }
        Ok(label)
    }

    /// Reads the label at the start of the text, and gives the text after it, which begins with an octet
    /// that no text of a label has. Each error comes exactly if its fault is the first one from the left.
    pub fn split_str(s: &[u8]) -> Result<(LabelBuf, &[u8]), LabelSplitError>
        ensures { GivesResult (λ x. (x.0, x.1.now)) result (split_label s.now) }
    {
        let (label, rest) = scan(s)?;
        if rest.is_empty() {
            return Err(LabelSplitError::ShortInput);
        }
        Ok((label, rest))
    }
}

impl FromStr for LabelBuf {
    type Err = LabelParseError;

    ghost from_str_gives = { λ text result. result ≡ parsed_label text };

    /// Reads the label that the whole text spells, as `parse_str` does.
    fn from_str(s: &str) -> Result<LabelBuf, LabelParseError> {
        LabelBuf::parse_str(s.as_bytes())
    }
}

/// Scans a label from the left, and gives the text after it.
fn scan(text: &[u8]) -> Result<(LabelBuf, &[u8]), ScanFault>
    ensures { GivesResult (λ x. (x.0, x.1.now)) result (label_scan text.now) }
{
    let mut label = LabelBuf::new();
    let mut rest = text;
    while let Some((octet, trailing)) = next_octet(rest)? {
        if label.push(octet).is_err() {
            return Err(ScanFault::Overlong);
        }
        rest = trailing;
    }
    Ok((label, rest))
}

/// The next octet of a label, and the text after it. There is none at the end of the text, and before an
/// octet that no text of a label has.
#[tactic(auto, unfolding(crate::specs::Text::next_octet))]
fn next_octet(text: &[u8]) -> Result<Option<(u8, &[u8])>, ScanFault>
    ensures { GivesResult (λ found. option_map (λ x. (x.0, x.1.now)) found) result (next_octet text.now) }
{
    let [octet, trailing @ ..] = text else {
        return Ok(None);
    };
    if is_unescaped(*octet) {
        return Ok(Some((*octet, trailing)));
    }
    if *octet == b'\\' {
        return escaped(trailing);
    }
    Ok(None)
}

/// The octet after a backslash, and the text after it.
#[tactic(auto, unfolding(crate::specs::Text::escaped))]
fn escaped(text: &[u8]) -> Result<Option<(u8, &[u8])>, ScanFault>
    ensures { GivesResult (λ found. option_map (λ x. (x.0, x.1.now)) found) result (escaped text.now) }
{
    let [octet, trailing @ ..] = text else {
        return Err(ScanFault::CutEscape);
    };
    if octet.is_ascii_digit() {
        return in_digits(*octet, trailing);
    }
    if octet.is_ascii_graphic() {
        return Ok(Some((*octet, trailing)));
    }
    Err(ScanFault::WrongEscape)
}

/// The octet of an escape in three digits, the first of which comes before the text.
#[tactic(auto, unfolding(crate::specs::Text::in_digits))]
fn in_digits(first: u8, text: &[u8]) -> Result<Option<(u8, &[u8])>, ScanFault>
    requires { IsAsciiDigit first }
    ensures { GivesResult (λ found. option_map (λ x. (x.0, x.1.now)) found) result (in_digits first text.now) }
{
    let [second, third, trailing @ ..] = text else {
        return Err(ScanFault::CutEscape);
    };
    if !second.is_ascii_digit() || !third.is_ascii_digit() {
        return Err(ScanFault::WrongEscape);
    }
    let number = three_digits(first, *second, *third);
    if number > 255 {
        return Err(ScanFault::WrongEscape);
    }
    Ok(Some((number as u8, trailing)))
}

/// The number of three decimal digits.
fn three_digits(a: u8, b: u8, c: u8) -> u16
    requires a { IsAsciiDigit a }
    requires b { IsAsciiDigit b }
    requires c { IsAsciiDigit c }
    ensures value { result ≡ three_digits a b c }
    ensures small { result < 1000 }
{
    u16::from(a - b'0') * 100 + u16::from(b - b'0') * 10 + u16::from(c - b'0')
}

/// An octet of a label as it is printed.
#[derive(Clone, Copy)]
struct Shown(u8);

impl fmt::Display for Shown {
    ghost output = { λ o. Some (shown_octet o.0) };

    fn fmt<W: fmt::Write>(&self, f: &mut fmt::Formatter<W>) -> fmt::Result {
        let octet = self.0;
        if is_unescaped(octet) {
            f.write_char(char::from(octet))
        } else if octet.is_ascii_graphic() {
            f.write_char('\\')?;
            f.write_char(char::from(octet))
        } else {
            write!(f, "\\{}{}{}", octet / 100, octet / 10 % 10, octet % 10)
        }
    }
}

impl fmt::Display for Label<'_> {
    ghost output = { λ v. Some (shown_label (contents_of v.slice.now)) };

    /// Prints the contents octet by octet: letters, digits and most marks as they are, other graphic ASCII
    /// after a backslash, and any other octet as a backslash and three decimal digits.
    fn fmt<W: fmt::Write>(&self, f: &mut fmt::Formatter<W>) -> fmt::Result {
        for octet in self.contents() {
            f.write(Shown(*octet))?;
        }
        Ok(())
    }
}

impl fmt::Display for LabelBuf {
    ghost output = { λ v. Some (shown_label v) };

    /// Prints the label as its view prints.
    fn fmt<W: fmt::Write>(&self, f: &mut fmt::Formatter<W>) -> fmt::Result {
        fmt::Display::fmt(&self.as_label(), f)
    }
}
