//! How far octets agree, ignoring ASCII case (RFC 4343 section 3): from the first on, and from the last back. Octets
//! are compared in blocks as they are, and in lowercase only where they differ.

ghost use Rattle.std.specs.Prelude.{◌≡◌, ◌≤◌, ◌+◌, ◌-◌, length, take, drop};
ghost use Rattle.std.specs.Str.{str_to_ascii_lowercase};
ghost use Rattle.dns_wire.specs.Agreement.{agreeing_prefix, agreeing_end};

use std::simd::prelude::*;

/// The 16 octets from a place on, in lowercase.
#[inline(always)]
fn lowercase_block(octets: &[u8], at: usize) -> u8x16
    requires { at + 16 ≤ length octets.now }
    ensures { result ≡ str_to_ascii_lowercase (take 16 (drop at octets.now)) }
{
    let block = u8x16::from_slice(&octets[at..]);
    let is_capital = (block - u8x16::splat(b'A')).simd_lt(u8x16::splat(26));
    is_capital.select(block + u8x16::splat(32), block)
}

/// How many of the 16 octets from a place on agree, ignoring ASCII case, before the first that differ. Case is looked at
/// only if the octets as they are differ.
#[inline(always)]
fn agreement_in_block(a: &[u8], b: &[u8], at: usize) -> usize
    requires left { at + 16 ≤ length a.now }
    requires right { at + 16 ≤ length b.now }
    ensures exact { result ≡ agreeing_prefix (take 16 (drop at a.now)) (take 16 (drop at b.now)) }
    ensures within { result ≤ 16 }
{
    let block = u8x16::from_slice(&a[at..]);
    let differs = block.simd_ne(u8x16::from_slice(&b[at..])).to_bitmask();
    if differs == 0 {
        return 16;
    }
    let differs = lowercase_block(a, at)
        .simd_ne(lowercase_block(b, at))
        .to_bitmask();
    if differs == 0 {
        16
    } else {
        differs.trailing_zeros() as usize
    }
}

/// How many octets are equal from the last back, as they are, in blocks of 8.
fn pass_equal_back(a: &[u8], b: &[u8]) -> usize
    ensures within { result ≤ length a.now × result ≤ length b.now }
    ensures same { drop (length a.now - result) a.now ≡ drop (length b.now - result) b.now }
{
    let mut left = a;
    let mut right = b;
    while let (Some((prefix, x)), Some((other, y))) = (
        left.split_last_chunk::<8>(),
        right.split_last_chunk::<8>(),
    ) {
        if x != y {
            break;
        }
        left = prefix;
        right = other;
    }
    a.len() - left.len()
}

/// How many octets agree from the first on, ignoring ASCII case, octet by octet.
fn agreement_by_octets(a: &[u8], b: &[u8]) -> usize
    ensures { result ≡ agreeing_prefix a.now b.now }
{
    let mut at = 0;
    while at < a.len() && at < b.len() && (a[at] == b[at] || a[at].eq_ignore_ascii_case(&b[at])) {
        at += 1;
    }
    at
}

/// How many octets agree from the first on, ignoring ASCII case.
pub fn agreement_from_start(a: &[u8], b: &[u8]) -> usize
    ensures { result ≡ agreeing_prefix a.now b.now }
{
    let both = a.len().min(b.len());
    if both < 16 {
        return agreement_by_octets(a, b);
    }
    let mut at = 0;
    while at + 16 <= both {
        let agreed = agreement_in_block(a, b, at);
        at += agreed;
        if agreed < 16 {
            return at;
        }
    }
    // The last block overlaps the one before it.
    both - 16 + agreement_in_block(a, b, both - 16)
}

/// How many octets agree from the last back, ignoring ASCII case.
pub fn agreement_from_end(a: &[u8], b: &[u8]) -> usize
    ensures { result ≡ agreeing_end a.now b.now }
{
    let same = pass_equal_back(a, b);
    let mut left = a.len() - same;
    let mut right = b.len() - same;
    while left > 0
        && right > 0
        && (a[left - 1] == b[right - 1] || a[left - 1].eq_ignore_ascii_case(&b[right - 1]))
    {
        left -= 1;
        right -= 1;
    }
    a.len() - left
}
