//! The hexadecimal digits of octets, by blocks of sixteen octets (RFC 4648 section 8).

ghost use Rattle.std.specs.Prelude.{◌≡◌, ◌≤◌, ◌<◌, ◌+◌, ◌*◌, length, map, take, drop, codes, slice_index, flat_map, All};
ghost use Rattle.dns_text.specs.Hexadecimal.{shown};

use crate::read_digits::BLOCK;
use std::simd::prelude::*;

/// The digits of sixteen values, in lowercase.
#[inline(always)]
fn digits_of(values: u8x16) -> u8x16
    requires { All (λ value. value < 16) values }
    ensures { result ≡ map (slice_index (codes "0123456789abcdef")) values }
{
    let numeral = values + u8x16::splat(b'0');
    let letter = values + u8x16::splat(b'a' - 10);
    values.simd_gt(u8x16::splat(9)).select(letter, numeral)
}

/// The digits of sixteen octets: those of the first eight, and those of the others.
#[inline(always)]
fn block_shown(octets: u8x16) -> (u8x16, u8x16)
    ensures first { result.0 ≡ flat_map shown (take 8 octets) }
    ensures second { result.1 ≡ flat_map shown (drop 8 octets) }
{
    let high = digits_of(octets >> 4);
    let low = digits_of(octets & u8x16::splat(15));
    high.interleave(low)
}

/// Puts the digits of the sixteen octets at a place into the text.
#[inline(always)]
fn put_block(octets: &[u8], text: &mut [u8], at: usize)
    requires within { at + 16 ≤ length octets.now }
    requires long { length text.old ≡ 2 * length octets.now }
    ensures long { length text.new ≡ length text.old }
    ensures next { take (2 * at) text.old ≡ flat_map shown (take at octets.now)
        → take (2 * (at + 16)) text.new ≡ flat_map shown (take (at + 16) octets.now) }
{
    let (first, second) = block_shown(u8x16::from_slice(&octets[at..]));
    first.copy_to_slice(&mut text[2 * at..]);
    second.copy_to_slice(&mut text[2 * at + BLOCK..]);
}

/// Puts the digits of the octets into the text, in lowercase.
pub fn put_digits(octets: &[u8], text: &mut [u8])
    requires { length text.old ≡ 2 * length octets.now }
    ensures { text.new ≡ flat_map shown octets.now }
{
    if octets.len() < BLOCK {
        hex::encode_to_slice(octets, text).unwrap();
        return;
    }
    let mut at = 0;
    while octets.len() - at > BLOCK {
        put_block(octets, text, at);
        at += BLOCK;
    }
    // The last block overlaps the one before it.
    put_block(octets, text, octets.len() - BLOCK);
}
