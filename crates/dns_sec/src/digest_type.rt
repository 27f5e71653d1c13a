//! Digests of keys.

ghost use Rattle.dns_wire.specs.ReadingLemmas.{octet_leaves};
ghost use Rattle.std.specs.Prelude.{◌≡◌, ℕ, [], ◌∷◌, None, ⊤};
ghost use Rattle.dns_wire.specs.Layout.{octets_writes};
ghost use Rattle.dns_wire.specs.Reading.{octet};

use dns_wire::{
    BuildBytes, BuildInMessage, NameCompressor, ParseError, ReadPlainValue, SplitBytes,
    TruncationError, build_whole,
};

/// How a key is digested: one octet on the wire (RFC 4034 appendix A.2).
#[derive(Clone, Copy, Debug, PartialEq, Eq, PartialOrd, Ord, Hash)]
pub struct DigestType {
    /// The number.
    pub code: u8,
}

impl DigestType {
    /// SHA-1 (RFC 4034 section 5.1.3).
    pub const SHA1: DigestType = DigestType { code: 1 };
}

impl<'a> ReadPlainValue<'a> for DigestType {
    ghost Seen = { ℕ };

    ghost seen = { λ v. v.code };

    ghost reads = { octet };

    ghost leaves_rest = { octet_leaves };

    fn read_plain(bytes: &'a [u8]) -> Result<(DigestType, &'a [u8]), ParseError> {
        let (code, rest) = u8::split_bytes(bytes)?;
        Ok((DigestType { code }, rest))
    }
}

impl BuildBytes for DigestType {
    ghost octets = { λ v. v.code ∷ [] };

    fn build_at(&self, bytes: &mut [u8], start: usize) -> Result<usize, TruncationError> {
        self.code.build_at(bytes, start)
    }

    fn built_bytes_size(&self) -> usize
        ensures { result ≡ 1 }
    {
        1
    }
}

/// Whole, with no name in it.
impl BuildInMessage for DigestType {
    ghost writes = { λ v. octets_writes (v.code ∷ []) };

    ghost layout_matches = { λ _. tt };

    fn build_in_message(
        &self,
        contents: &mut [u8],
        start: usize,
        compressor: &mut NameCompressor,
    ) -> Result<usize, TruncationError> {
        build_whole(self, contents, start, compressor)
    }
}
