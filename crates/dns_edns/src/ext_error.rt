//! Extended errors.

ghost use Rattle.dns_wire.specs.ReadingLemmas.{plain_ends};
ghost use Rattle.dns_edns.specs.ExtErrorsLemmas.{ext_error_leaves};
ghost use Rattle.std.specs.Prelude.{◌≡◌, ◌↔◌, ℕ, List, [], ◌++◌, None, IfSome, ⊤};
ghost use Rattle.std.specs.Int.{w16, to_be_bytes};
ghost use Rattle.dns_wire.specs.Reading.{plain_at};
ghost use Rattle.dns_edns.specs.ExtErrors.{ext_error, text_of, without_last_nul};

use crate::ext_error_code::ExtErrorCode;
use dns_wire::{BuildBytes, ParseBytes, ParseError, SplitBytes, TruncationError};

/// Why an answer is as it is: a code, and a text of UTF-8 for people (RFC 8914 section 2).
#[derive(Clone, Copy, Debug, PartialEq, Eq, Hash)]
pub struct ExtError<'a> {
    /// What the error is.
    pub code: ExtErrorCode,
    text: &'a str,
}

impl<'a> ExtError<'a> {
    /// An error of this code with this text, which may be empty.
    pub fn new(code: ExtErrorCode, text: &'a str) -> ExtError<'a>
        ensures code { result.code ≡ code }
        ensures text { text_of result ≡ text.now }
    {
        ExtError { code, text }
    }

    /// The text without the one NUL that may end it (RFC 8914 section 2); `None` if it is empty.
    pub fn text(&self) -> Option<&'a str>
        ensures none { (result ≡ None) ↔ (text_of self.now ≡ []) }
        ensures text { IfSome result (λ text. text.now ≡ without_last_nul (text_of self.now)) }
    {
        if self.text.is_empty() {
            return None;
        }
        match self.text.strip_suffix('\0') {
            Some(prefix) => Some(prefix),
            None => Some(self.text),
        }
    }
}

/// `ParseError` comes exactly if there are fewer than two octets, or those after them are not UTF-8.
impl<'a> ParseBytes<'a> for ExtError<'a> {
    ghost Seen = { ℕ × List ℕ };

    ghost seen = { λ v. (v.code.code.value, text_of v) };

    ghost reads = { ext_error };

    ghost reads_at = { plain_at ext_error };

    ghost leaves_rest = { ext_error_leaves };

    ghost ends_within = { plain_ends ext_error ext_error_leaves };

    fn parse_bytes(bytes: &'a [u8]) -> Result<ExtError<'a>, ParseError> {
        let (code, rest) = ExtErrorCode::split_bytes(bytes)?;
        let text = <&'a str>::parse_bytes(rest)?;
        Ok(ExtError { code, text })
    }
}

impl BuildBytes for ExtError<'_> {
    ghost octets = { λ v. to_be_bytes w16 v.code.code.value ++ text_of v };

    fn build_at(&self, bytes: &mut [u8], start: usize) -> Result<usize, TruncationError> {
        (&self.code, &self.text).build_at(bytes, start)
    }

    fn built_bytes_size(&self) -> usize {
        2 + self.text.len()
    }
}
