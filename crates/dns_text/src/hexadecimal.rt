//! Octets as hexadecimal text (RFC 4648 section 8).

ghost use Rattle.std.specs.Prelude.{◌≡◌, ◌+◌, ◌*◌, ◌++◌, codes, flat_map, length, IfOk, OnOk, OnErr, IsErrOf};
ghost use Rattle.dns_text.specs.Hexadecimal.{Spells, SpellsNothing, line, shown, trim, is_whitespace};

use crate::buffer::zeros;
use crate::error::HexError;
use crate::read_digits::put_octets;
use crate::write_digits::put_digits;
use std::alloc::{AllocError, Global};

/// Whether an octet is a space, a tab, CR or LF.
fn is_whitespace(octet: u8) -> bool
    ensures { result ≡ is_whitespace octet }
{
    octet == b' ' || octet == b'\t' || octet == b'\r' || octet == b'\n'
}

/// The text without the whitespace at its end.
pub fn trimmed(text: &[u8]) -> &[u8]
    ensures { result.now ≡ trim text.now }
{
    let mut end = text.len();
    while end > 0 && is_whitespace(text[end - 1]) {
        end -= 1;
    }
    &text[..end]
}

/// Reads the octets that the text spells, except for whitespace at its end, in place of those in the buffer. After a refusal the octets
/// in the buffer are unspecified.
pub fn read_octets(text: &[u8], octets: &mut Vec<u8>) -> Result<(), HexError>
    ensures ok { OnOk result (Spells text.now octets.new.items) }
    ensures bad_hex { IsErrOf result HexError.BadHex → SpellsNothing text.now }
{
    let digits = trimmed(text);
    if digits.len() % 2 == 1 {
        return Err(HexError::BadHex);
    }
    octets.resize(digits.len() / 2, 0)?;
    if put_octets(digits, octets) {
        Ok(())
    } else {
        Err(HexError::BadHex)
    }
}

/// The octets that the text spells, except for whitespace at its end.
pub fn octets_of(alloc: Global, text: &[u8]) -> Result<Vec<u8>, HexError>
    ensures ok { IfOk result (λ octets. Spells text.now octets.items) }
    ensures bad_hex { IsErrOf result HexError.BadHex → SpellsNothing text.now }
{
    let mut octets = zeros(alloc, text.len() / 2)?;
    read_octets(text, &mut octets)?;
    Ok(octets)
}

/// Puts the digits of octets in lowercase, and a space, into the text.
fn put_hex_field(octets: &[u8], text: &mut [u8])
    requires { length text.old ≡ 2 * length octets.now + 1 }
    ensures { text.new ≡ flat_map shown octets.now ++ codes " " }
{
    let end = 2 * octets.len();
    put_digits(octets, &mut text[..end]);
    text[end] = b' ';
}

/// Puts the digits of octets in lowercase, and LF, into the text.
pub fn put_hex_line(octets: &[u8], text: &mut [u8])
    requires { length text.old ≡ 2 * length octets.now + 1 }
    ensures { text.new ≡ line octets.now }
{
    let end = 2 * octets.len();
    put_digits(octets, &mut text[..end]);
    text[end] = b'\n';
}

/// Adds the digits of octets in lowercase, and LF, to a text. `AllocError` is out of memory, and adds nothing.
pub fn push_hex_line(octets: &[u8], text: &mut Vec<u8>) -> Result<(), AllocError>
    ensures added { OnOk result (text.new.items ≡ text.old.items ++ line octets.now) }
    ensures unchanged { OnErr result (text.new.items ≡ text.old.items) }
{
    let start = text.len();
    text.resize(start.saturating_add(2 * octets.len() + 1), 0)?;
    put_hex_line(octets, &mut text[start..]);
    Ok(())
}

/// Adds the digits of octets in lowercase, and a space, to a text. `AllocError` is out of memory, and adds nothing.
pub fn push_hex_field(octets: &[u8], text: &mut Vec<u8>) -> Result<(), AllocError>
    ensures added { OnOk result (text.new.items ≡ text.old.items ++ (flat_map shown octets.now ++ codes " ")) }
    ensures unchanged { OnErr result (text.new.items ≡ text.old.items) }
{
    let start = text.len();
    text.resize(start.saturating_add(2 * octets.len() + 1), 0)?;
    put_hex_field(octets, &mut text[start..]);
    Ok(())
}

/// The digits of octets in lowercase, and LF.
pub fn hex_line(alloc: Global, octets: &[u8]) -> Result<Vec<u8>, AllocError>
    ensures { IfOk result (λ text. text.items ≡ line octets.now) }
{
    let mut text = zeros(alloc, 2 * octets.len() + 1)?;
    put_hex_line(octets, &mut text);
    Ok(text)
}
