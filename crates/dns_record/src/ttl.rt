//! Times to live.

ghost use Rattle.dns_wire.specs.ReadingLemmas.{number_leaves};
ghost use Rattle.std.specs.Prelude.{◌≡◌, ℕ, [], None, ⊤, length};
ghost use Rattle.std.specs.Int.{w32, to_be_bytes};
ghost use Rattle.dns_wire.specs.Layout.{octets_writes};
ghost use Rattle.dns_wire.specs.Reading.{number};

use dns_num::U32;
use dns_wire::{
    BuildBytes, BuildInMessage, NameCompressor, ParseError, ReadPlainValue, SplitBytes,
    TruncationError, build_whole,
};

/// For how many seconds a record may be kept: four octets on the wire (RFC 1035 section 3.2.1).
#[derive(Clone, Copy, Debug, PartialEq, Eq, PartialOrd, Ord, Hash)]
pub struct TTL {
    /// The seconds.
    pub value: U32,
}

impl TTL {
    /// The seconds as a plain number.
    pub fn as_secs(&self) -> u32
        ensures { result ≡ self.now.value.value }
    {
        self.value.get()
    }
}

impl From<u32> for TTL {
    ghost from_gives = { λ plain v. v.value.value ≡ plain };

    fn from(value: u32) -> TTL {
        TTL {
            value: U32 { value },
        }
    }
}

impl From<TTL> for u32 {
    ghost from_gives = { λ v plain. plain ≡ v.value.value };

    fn from(value: TTL) -> u32 {
        value.value.get()
    }
}

impl<'a> ReadPlainValue<'a> for TTL {
    ghost Seen = { ℕ };

    ghost seen = { λ v. v.value.value };

    ghost reads = { number w32 };

    ghost leaves_rest = { number_leaves w32 };

    fn read_plain(bytes: &'a [u8]) -> Result<(TTL, &'a [u8]), ParseError> {
        let (value, rest) = U32::split_bytes(bytes)?;
        Ok((TTL { value }, rest))
    }
}

impl BuildBytes for TTL {
    ghost octets = { λ v. to_be_bytes w32 v.value.value };

    fn build_at(&self, bytes: &mut [u8], start: usize) -> Result<usize, TruncationError> {
        self.value.build_at(bytes, start)
    }

    fn built_bytes_size(&self) -> usize
        ensures size { result ≡ length (to_be_bytes w32 self.now.value.value) }
        ensures fixed { result ≡ 4 }
    {
        self.value.built_bytes_size()
    }
}

/// Whole, with no name in it.
impl BuildInMessage for TTL {
    ghost writes = { λ v. octets_writes (to_be_bytes w32 v.value.value) };

    ghost layout_matches = { λ _. tt };

    fn build_in_message(
        &self,
        contents: &mut [u8],
        start: usize,
        compressor: &mut NameCompressor,
    ) -> Result<usize, TruncationError> {
        build_whole(self, contents, start, compressor)
    }
}
