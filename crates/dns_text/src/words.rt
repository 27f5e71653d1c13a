//! Words that are numbers.

ghost use Rattle.std.specs.Prelude.{◌≡◌};
ghost use Rattle.dns_text.specs.Words.{number_within};

use itoa::Buffer;

/// The number that a word is: at most `limit`, in decimal digits, without a sign or a zero before.
pub fn number_within(word: &str, limit: u16) -> Option<u16>
    ensures { result ≡ number_within limit word.now }
{
    let Ok(number) = word.parse::<u16>() else {
        return None;
    };
    let mut buffer = Buffer::new();
    if number > limit || buffer.format(number) != word {
        return None;
    }
    Some(number)
}
