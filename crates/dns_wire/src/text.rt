//! Reading and writing text.

ghost use Rattle.std.specs.Prelude.{◌↔◌, ℕ, List, None, IsOk, ⊤};
ghost use Rattle.std.specs.Str.{IsUtf8};
ghost use Rattle.dns_wire.specs.Layout.{octets_writes};
ghost use Rattle.dns_wire.specs.Reading.{Gives, all_of, plain_at};
ghost use Rattle.dns_wire.specs.ReadingLemmas.{text_leaves, plain_ends};
ghost use Rattle.dns_wire.specs.Texts.{text};

use crate::build::{BuildBytes, put};
use crate::compression::NameCompressor;
use crate::error::{ParseError, TruncationError};
use crate::in_message::{BuildInMessage, build_whole};
use crate::parse::{ParseBytes, ParseMessageBytes, parse_without_compression};

/// All the octets, if they are UTF-8.
impl<'a> ParseBytes<'a> for &'a str {
    ghost Seen = { List ℕ };

    ghost seen = { λ v. v.now };

    ghost reads = { text };

    ghost reads_at = { plain_at text };

    ghost leaves_rest = { text_leaves };

    ghost ends_within = { plain_ends text text_leaves };

    /// Reads the text that all the octets are. `ParseError` comes exactly if they are not UTF-8
    /// (RFC 3629 section 4).
    fn parse_bytes(bytes: &'a [u8]) -> Result<&'a str, ParseError>
        ensures exact { Gives (λ v. v.now) result (all_of (text bytes.now)) }
        ensures utf8 { IsOk result ↔ IsUtf8 bytes.now }
    {
        match str::from_utf8(bytes) {
            Ok(text) => Ok(text),
            Err(_) => Err(ParseError),
        }
    }
}

impl<'a> ParseMessageBytes<'a> for &'a str {
    fn parse_message_bytes(contents: &'a [u8], start: usize) -> Result<&'a str, ParseError> {
        parse_without_compression(contents, start)
    }
}

/// The octets of the text.
impl BuildBytes for &str {
    ghost octets = { λ v. v.now };

    fn build_at(&self, bytes: &mut [u8], start: usize) -> Result<usize, TruncationError> {
        put(self.as_bytes(), bytes, start)
    }

    fn built_bytes_size(&self) -> usize {
        self.len()
    }
}

/// Whole, with no name in it.
impl BuildInMessage for &str {
    ghost writes = { λ v. octets_writes v.now };

    ghost layout_matches = { λ _. tt };

    fn build_in_message(
        &self,
        contents: &mut [u8],
        start: usize,
        compressor: &mut NameCompressor,
    ) -> Result<usize, TruncationError> {
        build_whole(self, contents, start, compressor)
    }
}
