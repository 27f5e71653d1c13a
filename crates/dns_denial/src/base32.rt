//! Octets as text in base32hex (RFC 4648 section 7), in lowercase.

ghost use Rattle.std.specs.Prelude.{◌≡◌, ◌+◌, ◌*◌, ◌^◌, ◌<◌, ◌%◌, length};
ghost use Rattle.dns_denial.specs.Base32.{base32hex_of, last_digit};

const DIGITS: [u8; 32] = *b"0123456789abcdefghijklmnopqrstuv";

/// The digit of the last five bits.
fn last_digit(bits: u64) -> u8
    ensures { result ≡ last_digit bits }
{
    DIGITS[(bits % 32) as usize]
}

/// The text of five octets.
fn group_text(group: &[u8]) -> [u8; 8]
    requires { length group.now ≡ 5 }
    ensures { result ≡ base32hex_of group.now }
{
    let bits = u64::from(group[0]);
    let bits = bits * 256 + u64::from(group[1]);
    let bits = bits * 256 + u64::from(group[2]);
    let bits = bits * 256 + u64::from(group[3]);
    let bits = bits * 256 + u64::from(group[4]);
    [
        last_digit(bits >> 35),
        last_digit(bits >> 30),
        last_digit(bits >> 25),
        last_digit(bits >> 20),
        last_digit(bits >> 15),
        last_digit(bits >> 10),
        last_digit(bits >> 5),
        last_digit(bits),
    ]
}

/// The text of a hash.
pub fn base32hex(octets: &[u8; 20]) -> [u8; 32]
    ensures { result ≡ base32hex_of octets.now }
{
    let mut text = [0u8; 32];
    for i in 0..4 {
        text[8 * i..8 * i + 8].copy_from_slice(&group_text(&octets[5 * i..5 * i + 5]));
    }
    text
}
