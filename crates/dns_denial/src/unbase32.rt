//! A hash from its text in base32hex (RFC 4648 section 7), in lowercase.

ghost use Rattle.std.specs.Prelude.{◌≡◌, ◌<◌, ◌%◌, length};
ghost use Rattle.dns_denial.specs.Unbase32.{bits_of, digit_value, five_octets, groups_read, hash_of_text};

use crate::base32::base32hex;

/// The value of a digit, and 0 for what is none.
fn digit_value(digit: u8) -> u64
    ensures value { result ≡ digit_value digit }
    ensures small { result < 32 }
{
    match digit {
        b'0'..=b'9' => u64::from(digit - b'0'),
        b'a'..=b'v' => u64::from(digit - b'a') + 10,
        _ => 0,
    }
}

/// The last eight bits.
fn last_octet(bits: u64) -> u8
    ensures { result ≡ bits % 256 }
{
    (bits % 256) as u8
}

/// The octets of eight digits.
fn group_octets(group: &[u8]) -> [u8; 5]
    requires { length group.now ≡ 8 }
    ensures { result ≡ five_octets (bits_of group.now) }
{
    let bits = digit_value(group[0]);
    let bits = bits * 32 + digit_value(group[1]);
    let bits = bits * 32 + digit_value(group[2]);
    let bits = bits * 32 + digit_value(group[3]);
    let bits = bits * 32 + digit_value(group[4]);
    let bits = bits * 32 + digit_value(group[5]);
    let bits = bits * 32 + digit_value(group[6]);
    let bits = bits * 32 + digit_value(group[7]);
    [
        last_octet(bits >> 32),
        last_octet(bits >> 24),
        last_octet(bits >> 16),
        last_octet(bits >> 8),
        last_octet(bits),
    ]
}

/// The octets of 32 digits, of which one that is none counts 0.
fn groups_read(text: &[u8]) -> [u8; 20]
    requires { length text.now ≡ 32 }
    ensures { result ≡ groups_read 4 text.now }
{
    let mut octets = [0u8; 20];
    for i in 0..4 {
        octets[5 * i..5 * i + 5].copy_from_slice(&group_octets(&text[8 * i..8 * i + 8]));
    }
    octets
}

/// The hash whose text this is; `None` if it is that of none. What is no digit, and so no text of a hash, is found by writing the text
/// again.
pub(crate) fn unbase32hex(text: &[u8]) -> Option<[u8; 20]>
    ensures { result ≡ hash_of_text text.now }
{
    if text.len() != 32 {
        return None;
    }
    let octets = groups_read(text);
    if base32hex(&octets).as_slice() == text {
        Some(octets)
    } else {
        None
    }
}
