//! Lines of a text, which is read in pieces.

ghost use Rattle.std.specs.Prelude.{◌≡◌, ◌≤◌, ◌++◌, ◌∷◌, MatchOption, OnOk, take, vec_len};
ghost use Rattle.dns_lines.specs.Lines.{IsLine, line_feed};

use dns_text::MESSAGE_TEXT_LIMIT;
use memchr::memchr;
use std::alloc::AllocError;

/// The most octets of a line that is not refused as too long: the text of one message, two digits for each of 65,536 octets.
pub const LINE_LIMIT: usize = MESSAGE_TEXT_LIMIT;

/// The most octets that are kept of a line. They are one more than the limit, so that a longer line is seen to be too long.
pub(crate) const KEPT_OCTETS: usize = LINE_LIMIT + 1;

/// The line at the start of a text, and the text after its LF; `None` if the text has no LF.
pub(crate) fn split_line(text: &[u8]) -> Option<(&[u8], &[u8])>
    ensures { MatchOption result (IsLine text.now) (λ x. IsLine x.0.now × (text.now ≡ x.0.now ++ line_feed ∷ x.1.now)) }
{
    match memchr(b'\n', text) {
        Some(end) => Some((&text[..end], &text[end + 1..])),
        None => None,
    }
}

/// Adds octets to what is kept of a line. `AllocError` is out of memory.
pub(crate) fn extend_line(line: &mut Vec<u8>, piece: &[u8]) -> Result<(), AllocError>
    requires { vec_len line.old ≤ KEPT_OCTETS }
    ensures { OnOk result (line.new.items ≡ take KEPT_OCTETS (line.old.items ++ piece.now)) }
{
    let room = KEPT_OCTETS - line.len();
    line.extend_from_slice(&piece[..piece.len().min(room)])
}
