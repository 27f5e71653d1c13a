//! The octets that hexadecimal digits spell, by blocks of sixteen octets (RFC 4648 section 8).

ghost use Rattle.std.specs.Prelude.{◌≡◌, ◌*◌, ◌++◌, length, Some, None, MatchBool};
ghost use Rattle.dns_text.specs.Hexadecimal.{spelled};
ghost use Rattle.dns_text.specs.Digits.{digit_values};

use std::simd::prelude::*;

/// How many octets a block has.
pub(crate) const BLOCK: usize = 16;

/// The values of sixteen digits, and whether all are digits.
#[inline(always)]
fn values_of(digits: u8x16) -> (u8x16, bool)
    ensures { MatchBool result.1 (digit_values digits ≡ Some result.0) (digit_values digits ≡ None) }
{
    let numeral = digits - u8x16::splat(b'0');
    let letter = (digits | u8x16::splat(0x20)) - u8x16::splat(b'a');
    let is_numeral = numeral.simd_lt(u8x16::splat(10));
    let is_letter = letter.simd_lt(u8x16::splat(6));
    let values = is_numeral.select(numeral, letter + u8x16::splat(10));
    (values, (is_numeral | is_letter).all())
}

/// The sixteen octets that 32 digits spell, and whether they spell any.
#[inline(always)]
fn block_of(first: u8x16, second: u8x16) -> (u8x16, bool)
    ensures { MatchBool result.1 (spelled (first ++ second) ≡ Some result.0) (spelled (first ++ second) ≡ None) }
{
    let (first_values, is_first) = values_of(first);
    let (second_values, is_second) = values_of(second);
    let (high, low) = first_values.deinterleave(second_values);
    ((high << 4) | low, is_first & is_second)
}

/// Puts the octets that the digits spell into the buffer, and says whether they spell any. If they spell none,
/// what the buffer holds is unspecified.
pub fn put_octets(digits: &[u8], octets: &mut [u8]) -> bool
    requires { length digits.now ≡ 2 * length octets.old }
    ensures { MatchBool result (spelled digits.now ≡ Some octets.new) (spelled digits.now ≡ None) }
{
    let mut at = 0;
    while octets.len() - at >= BLOCK {
        let first = u8x16::from_slice(&digits[2 * at..]);
        let second = u8x16::from_slice(&digits[2 * at + BLOCK..]);
        let (block, is_spelled) = block_of(first, second);
        if !is_spelled {
            return false;
        }
        block.copy_to_slice(&mut octets[at..]);
        at += BLOCK;
    }
    hex::decode_to_slice(&digits[2 * at..], &mut octets[at..]).is_ok()
}
