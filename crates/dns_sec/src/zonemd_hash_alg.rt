//! Digests of zones.

ghost use Rattle.dns_wire.specs.ReadingLemmas.{octet_leaves};
ghost use Rattle.std.specs.Prelude.{◌≡◌, ℕ, [], ◌∷◌, None, ⊤};
ghost use Rattle.dns_wire.specs.Layout.{octets_writes};
ghost use Rattle.dns_wire.specs.Reading.{octet};

use dns_wire::{
    BuildBytes, BuildInMessage, NameCompressor, ParseError, ReadPlainValue, SplitBytes,
    TruncationError, build_whole,
};

/// How a zone is digested: one octet on the wire (RFC 8976 section 2.2.3).
#[derive(Clone, Copy, Debug, PartialEq, Eq, PartialOrd, Ord, Hash)]
pub struct ZoneMDHashAlg {
    /// The number.
    pub code: u8,
}

impl ZoneMDHashAlg {
    /// SHA-384, whose digests have 48 octets.
    pub const SHA384: ZoneMDHashAlg = ZoneMDHashAlg { code: 1 };

    /// SHA-512, whose digests have 64 octets.
    pub const SHA512: ZoneMDHashAlg = ZoneMDHashAlg { code: 2 };
}

impl<'a> ReadPlainValue<'a> for ZoneMDHashAlg {
    ghost Seen = { ℕ };

    ghost seen = { λ v. v.code };

    ghost reads = { octet };

    ghost leaves_rest = { octet_leaves };

    fn read_plain(bytes: &'a [u8]) -> Result<(ZoneMDHashAlg, &'a [u8]), ParseError> {
        let (code, rest) = u8::split_bytes(bytes)?;
        Ok((ZoneMDHashAlg { code }, rest))
    }
}

impl BuildBytes for ZoneMDHashAlg {
    ghost octets = { λ v. v.code ∷ [] };

    fn build_at(&self, bytes: &mut [u8], start: usize) -> Result<usize, TruncationError> {
        self.code.build_at(bytes, start)
    }

    fn built_bytes_size(&self) -> usize
        ensures { result ≡ 1 }
    {
        1
    }
}

/// Whole, with no name in it.
impl BuildInMessage for ZoneMDHashAlg {
    ghost writes = { λ v. octets_writes (v.code ∷ []) };

    ghost layout_matches = { λ _. tt };

    fn build_in_message(
        &self,
        contents: &mut [u8],
        start: usize,
        compressor: &mut NameCompressor,
    ) -> Result<usize, TruncationError> {
        build_whole(self, contents, start, compressor)
    }
}
