//! Salts (RFC 5155 section 3.1.5).

ghost use Rattle.std.specs.Prelude.{◌≡◌, ◌≤◌, length};
ghost use Rattle.dns_text.specs.Hexadecimal.{spelled};
ghost use Rattle.dns_denial.specs.Words.{salt_named};

use dns_text::put_octets;
use std::marker::Model;

/// A salt of at most 255 octets. It takes no memory.
#[derive(Drop)]
pub(crate) struct Salt {
    buffer: [u8; Salt::MAX_SIZE],
    size: usize,
}

impl Model for Salt {
    ghost use Rattle.std.specs.Prelude.{◌≤◌, ℕ, List, take};

    ghost Value = { List ℕ };

    ghost view = { λ s. take s.size s.buffer };

    ghost invariant = { λ s. s.size ≤ 255 };
}

impl Salt {
    /// The most octets of a salt (RFC 5155 section 3.1.4).
    pub const MAX_SIZE: usize = 255;

    /// The most digits of a salt.
    const MAX_DIGITS: usize = 510;

    /// The salt that digits spell; `None` if they are not pairs of hexadecimal digits.
    fn spelled(digits: &[u8]) -> Option<Salt>
        requires { length digits.now ≤ Salt.MAX_DIGITS }
        ensures { result ≡ spelled digits.now }
    {
        let mut buffer = [0; Salt::MAX_SIZE];
        let size = digits.len() / 2;
        if digits.len() % 2 == 1 || !put_octets(digits, &mut buffer[..size]) {
            return None;
        }
        Some(Salt { buffer, size })
    }

    /// The salt that a word is: its octets in hexadecimal digits, at most 255, or `-` if it has none.
    pub fn named(word: &str) -> Option<Salt>
        ensures { result ≡ salt_named word.now }
    {
        let digits = word.as_bytes();
        if word == "-" {
            let buffer = [0; Salt::MAX_SIZE];
            return Some(Salt { buffer, size: 0 });
        }
        if digits.len() < 2 || digits.len() > Salt::MAX_DIGITS {
            return None;
        }
        Salt::spelled(digits)
    }

    /// The octets.
    pub fn as_slice(&self) -> &[u8]
        ensures octets { result.now ≡ self.now }
        ensures short { length result.now ≤ Salt.MAX_SIZE }
    {
        &self.buffer[..self.size]
    }
}
