//! The texts of two messages in one.

ghost use Rattle.std.specs.Prelude.{◌≡◌};
ghost use Rattle.dns_canon.specs.Parts.{first_text, second_text};

use dns_text::trimmed;

/// The texts of two messages in a text, which come before and after its first LF; whitespace at its end does
/// not count. If there is no LF, the second is empty.
pub(crate) fn parted(text: &[u8]) -> (&[u8], &[u8])
    ensures first { result.0.now ≡ first_text text.now }
    ensures second { result.1.now ≡ second_text text.now }
{
    let solid = trimmed(text);
    let mut end = 0;
    while end < solid.len() && solid[end] != b'\n' {
        end += 1;
    }
    if end < solid.len() {
        (&solid[..end], &solid[end + 1..])
    } else {
        (solid, &[])
    }
}
