//! Codes of options.

ghost use Rattle.dns_wire.specs.ReadingLemmas.{number_leaves};
ghost use Rattle.std.specs.Prelude.{◌≡◌, ℕ, [], None, ⊤};
ghost use Rattle.std.specs.Int.{w16, to_be_bytes};
ghost use Rattle.dns_wire.specs.Layout.{octets_writes};
ghost use Rattle.dns_wire.specs.Reading.{number};

use dns_num::U16;
use dns_wire::{
    BuildBytes, BuildInMessage, NameCompressor, ParseError, ReadPlainValue, SplitBytes,
    TruncationError, build_whole,
};

/// What an option is: two octets on the wire (RFC 6891 section 6.1.2).
#[derive(Clone, Copy, Debug, PartialEq, Eq, PartialOrd, Ord, Hash)]
pub struct OptionCode {
    /// The number.
    pub code: U16,
}

impl OptionCode {
    /// A cookie of a client, alone or with that of a server (RFC 7873 section 4).
    pub const COOKIE: OptionCode = OptionCode {
        code: U16 { value: 10 },
    };

    /// An extended error (RFC 8914 section 2).
    pub const EXT_ERROR: OptionCode = OptionCode {
        code: U16 { value: 15 },
    };
}

impl From<u16> for OptionCode {
    ghost from_gives = { λ plain v. v.code.value ≡ plain };

    fn from(value: u16) -> OptionCode {
        OptionCode {
            code: U16 { value },
        }
    }
}

impl From<OptionCode> for u16 {
    ghost from_gives = { λ v plain. plain ≡ v.code.value };

    fn from(value: OptionCode) -> u16 {
        value.code.get()
    }
}

impl<'a> ReadPlainValue<'a> for OptionCode {
    ghost Seen = { ℕ };

    ghost seen = { λ v. v.code.value };

    ghost reads = { number w16 };

    ghost leaves_rest = { number_leaves w16 };

    fn read_plain(bytes: &'a [u8]) -> Result<(OptionCode, &'a [u8]), ParseError> {
        let (code, rest) = U16::split_bytes(bytes)?;
        Ok((OptionCode { code }, rest))
    }
}

impl BuildBytes for OptionCode {
    ghost octets = { λ v. to_be_bytes w16 v.code.value };

    fn build_at(&self, bytes: &mut [u8], start: usize) -> Result<usize, TruncationError> {
        self.code.build_at(bytes, start)
    }

    fn built_bytes_size(&self) -> usize {
        self.code.built_bytes_size()
    }
}

/// Whole, with no name in it.
impl BuildInMessage for OptionCode {
    ghost writes = { λ v. octets_writes (to_be_bytes w16 v.code.value) };

    ghost layout_matches = { λ _. tt };

    fn build_in_message(
        &self,
        contents: &mut [u8],
        start: usize,
        compressor: &mut NameCompressor,
    ) -> Result<usize, TruncationError> {
        build_whole(self, contents, start, compressor)
    }
}
