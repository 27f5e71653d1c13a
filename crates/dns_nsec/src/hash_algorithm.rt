//! How owners are hashed.

ghost use Rattle.dns_wire.specs.ReadingLemmas.{octet_leaves};
ghost use Rattle.std.specs.Prelude.{◌≡◌, ◌∷◌, ℕ, [], None, ⊤};
ghost use Rattle.dns_wire.specs.Layout.{octets_writes};
ghost use Rattle.dns_wire.specs.Reading.{octet};

use dns_wire::{
    BuildBytes, BuildInMessage, NameCompressor, ParseError, ReadPlainValue, SplitBytes,
    TruncationError, build_whole,
};

/// How owners are hashed: one octet on the wire (RFC 5155 section 3.1.1).
#[derive(Clone, Copy, Debug, PartialEq, Eq, PartialOrd, Ord, Hash)]
pub struct Nsec3HashAlgorithm {
    /// The number.
    pub code: u8,
}

impl Nsec3HashAlgorithm {
    /// SHA-1 (RFC 5155 section 11).
    pub const SHA1: Nsec3HashAlgorithm = Nsec3HashAlgorithm { code: 1 };
}

impl<'a> ReadPlainValue<'a> for Nsec3HashAlgorithm {
    ghost Seen = { ℕ };

    ghost seen = { λ v. v.code };

    ghost reads = { octet };

    ghost leaves_rest = { octet_leaves };

    fn read_plain(bytes: &'a [u8]) -> Result<(Nsec3HashAlgorithm, &'a [u8]), ParseError> {
        let (code, rest) = u8::split_bytes(bytes)?;
        Ok((Nsec3HashAlgorithm { code }, rest))
    }
}

impl BuildBytes for Nsec3HashAlgorithm {
    ghost octets = { λ v. v.code ∷ [] };

    fn build_at(&self, bytes: &mut [u8], start: usize) -> Result<usize, TruncationError> {
        self.code.build_at(bytes, start)
    }

    fn built_bytes_size(&self) -> usize
        ensures { result ≡ 1 }
    {
        1
    }
}

/// Whole, with no name in it.
impl BuildInMessage for Nsec3HashAlgorithm {
    ghost writes = { λ v. octets_writes (v.code ∷ []) };

    ghost layout_matches = { λ _. tt };

    fn build_in_message(
        &self,
        contents: &mut [u8],
        start: usize,
        compressor: &mut NameCompressor,
    ) -> Result<usize, TruncationError> {
        build_whole(self, contents, start, compressor)
    }
}
