//! The fields of a record's line.

ghost use Rattle.std.specs.Prelude.{◌≡◌, ◌++◌, ◌∷◌, true, IfOk, MatchOption, length};
ghost use Rattle.dns_wire.specs.Octets.{Octets};
ghost use Rattle.dns_wire.specs.Reading.{AreOctets};
ghost use Rattle.dns_message.specs.Order.{SortKey};
ghost use Rattle.dns_record_lines.specs.LineFields.{AreFieldsOf, AreNumbersOf, IsField};
ghost use Rattle.dns_record_lines.specs.RecordLines.{IsLineOf, IsRecord, digits, space};

use dns_record::{RClass, RType, TTL};
use dns_text::put_octets;
use memchr::memchr;
use std::alloc::AllocError;

/// The digits of a line: of the owner's key, of the class and the type, of the data and of the TTL.
#[derive(Clone, Copy)]
pub(crate) struct LineFields<'l> {
    pub(crate) key: &'l [u8],
    pub(crate) class_and_type: &'l [u8],
    pub(crate) rdata: &'l [u8],
    pub(crate) ttl: &'l [u8],
}

/// The octets before the first space of a text, and those after it; `None` if the text has no space.
fn split_field(text: &[u8]) -> Option<(&[u8], &[u8])>
    ensures { MatchOption result (IsField text.now) (λ x. IsField x.0.now × (text.now ≡ x.0.now ++ space ∷ x.1.now)) }
{
    match memchr(b' ', text) {
        Some(end) => Some((&text[..end], &text[end + 1..])),
        None => None,
    }
}

/// The fields of a line; some come for each line of a record.
pub(crate) fn split_fields(line: &[u8]) -> Option<LineFields<'_>>
    ensures { (k : SortKey) → IsLineOf line.now k → MatchOption result ⊥ (AreFieldsOf k) }
{
    let (key, rest) = split_field(line)?;
    let (class_and_type, rest) = split_field(rest)?;
    let (rdata, ttl) = split_field(rest)?;
    Some(LineFields {
        key,
        class_and_type,
        rdata,
        ttl,
    })
}

/// Reads octets from their digits, in place of those in the buffer. `AllocError` is out of memory.
pub(crate) fn read_field(field: &[u8], octets: &mut Vec<u8>) -> Result<bool, AllocError>
    ensures { IfOk result (λ is_read. (read : Octets) → AreOctets read → field.now ≡ digits read → (is_read ≡ true) × (octets.new.items ≡ read)) }
{
    octets.resize(field.len() / 2, 0)?;
    Ok(field.len() % 2 == 0 && put_octets(field, octets))
}

/// Reads four octets from their digits.
fn read_four(field: &[u8]) -> Option<[u8; 4]>
    ensures { (read : Octets) → AreOctets read → length read ≡ 4 → field.now ≡ digits read → MatchOption result ⊥ (λ octets. octets ≡ read) }
{
    if field.len() != 8 {
        return None;
    }
    let mut octets = [0; 4];
    if put_octets(field, &mut octets) {
        Some(octets)
    } else {
        None
    }
}

/// The class, the type and the TTL of a line.
#[derive(Clone, Copy)]
pub(crate) struct LineNumbers {
    pub(crate) rclass: RClass,
    pub(crate) rtype: RType,
    pub(crate) ttl: TTL,
}

/// Reads the class, the type and the TTL of a line.
pub(crate) fn read_numbers(fields: &LineFields<'_>) -> Option<LineNumbers>
    ensures { (k : SortKey) → IsRecord k → AreFieldsOf k fields.now → MatchOption result ⊥ (AreNumbersOf k) }
{
    let [class_high, class_low, type_high, type_low] = read_four(fields.class_and_type)?;
    let ttl = read_four(fields.ttl)?;
    Some(LineNumbers {
        rclass: RClass::from(u16::from_be_bytes([class_high, class_low])),
        rtype: RType::from(u16::from_be_bytes([type_high, type_low])),
        ttl: TTL::from(u32::from_be_bytes(ttl)),
    })
}
