//! Algorithms of keys and signatures.

ghost use Rattle.dns_wire.specs.ReadingLemmas.{octet_leaves};
ghost use Rattle.std.specs.Prelude.{◌≡◌, ℕ, [], ◌∷◌, None, ⊤};
ghost use Rattle.dns_wire.specs.Layout.{octets_writes};
ghost use Rattle.dns_wire.specs.Reading.{octet};

use dns_wire::{
    BuildBytes, BuildInMessage, NameCompressor, ParseError, ReadPlainValue, SplitBytes,
    TruncationError, build_whole,
};

/// The algorithm of a key and of the signatures by it: one octet on the wire (RFC 4034 appendix A.1).
#[derive(Clone, Copy, Debug, PartialEq, Eq, PartialOrd, Ord, Hash)]
pub struct SecAlg {
    /// The number.
    pub code: u8,
}

impl SecAlg {
    /// DSA with SHA-1 (RFC 2536).
    pub const DSA_SHA1: SecAlg = SecAlg { code: 3 };

    /// RSA with SHA-1 (RFC 3110).
    pub const RSA_SHA1: SecAlg = SecAlg { code: 5 };
}

impl<'a> ReadPlainValue<'a> for SecAlg {
    ghost Seen = { ℕ };

    ghost seen = { λ v. v.code };

    ghost reads = { octet };

    ghost leaves_rest = { octet_leaves };

    fn read_plain(bytes: &'a [u8]) -> Result<(SecAlg, &'a [u8]), ParseError> {
        let (code, rest) = u8::split_bytes(bytes)?;
        Ok((SecAlg { code }, rest))
    }
}

impl BuildBytes for SecAlg {
    ghost octets = { λ v. v.code ∷ [] };

    fn build_at(&self, bytes: &mut [u8], start: usize) -> Result<usize, TruncationError> {
        self.code.build_at(bytes, start)
    }

    fn built_bytes_size(&self) -> usize
        ensures { result ≡ 1 }
    {
        1
    }
}

/// Whole, with no name in it.
impl BuildInMessage for SecAlg {
    ghost writes = { λ v. octets_writes (v.code ∷ []) };

    ghost layout_matches = { λ _. tt };

    fn build_in_message(
        &self,
        contents: &mut [u8],
        start: usize,
        compressor: &mut NameCompressor,
    ) -> Result<usize, TruncationError> {
        build_whole(self, contents, start, compressor)
    }
}
