//! Classes that a question asks for.

ghost use Rattle.dns_wire.specs.ReadingLemmas.{number_leaves};
ghost use Rattle.std.specs.Prelude.{◌≡◌, ℕ, [], None, ⊤, length};
ghost use Rattle.std.specs.Int.{w16, to_be_bytes};
ghost use Rattle.dns_wire.specs.Layout.{octets_writes};
ghost use Rattle.dns_wire.specs.Reading.{number};

use dns_num::U16;
use dns_wire::{
    BuildBytes, BuildInMessage, NameCompressor, ParseError, ReadPlainValue, SplitBytes,
    TruncationError, build_whole,
};

/// The class that a question asks for: two octets on the wire (RFC 1035 section 3.2.5).
#[derive(Clone, Copy, Debug, PartialEq, Eq, PartialOrd, Ord, Hash)]
pub struct QClass {
    /// The number.
    pub code: U16,
}

impl QClass {
    /// The internet (RFC 1035 section 3.2.4).
    pub const IN: QClass = QClass {
        code: U16 { value: 1 },
    };

    /// CHAOS (RFC 1035 section 3.2.4).
    pub const CH: QClass = QClass {
        code: U16 { value: 3 },
    };
}

impl<'a> ReadPlainValue<'a> for QClass {
    ghost Seen = { ℕ };

    ghost seen = { λ v. v.code.value };

    ghost reads = { number w16 };

    ghost leaves_rest = { number_leaves w16 };

    fn read_plain(bytes: &'a [u8]) -> Result<(QClass, &'a [u8]), ParseError> {
        let (code, rest) = U16::split_bytes(bytes)?;
        Ok((QClass { code }, rest))
    }
}

impl BuildBytes for QClass {
    ghost octets = { λ v. to_be_bytes w16 v.code.value };

    fn build_at(&self, bytes: &mut [u8], start: usize) -> Result<usize, TruncationError> {
        self.code.build_at(bytes, start)
    }

    fn built_bytes_size(&self) -> usize
        ensures size { result ≡ length (to_be_bytes w16 self.now.code.value) }
        ensures fixed { result ≡ 2 }
    {
        self.code.built_bytes_size()
    }
}

/// Whole, with no name in it.
impl BuildInMessage for QClass {
    ghost writes = { λ v. octets_writes (to_be_bytes w16 v.code.value) };

    ghost layout_matches = { λ _. tt };

    fn build_in_message(
        &self,
        contents: &mut [u8],
        start: usize,
        compressor: &mut NameCompressor,
    ) -> Result<usize, TruncationError> {
        build_whole(self, contents, start, compressor)
    }
}
