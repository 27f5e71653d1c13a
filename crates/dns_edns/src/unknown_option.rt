//! Data of options that are kept unchanged.

ghost use Rattle.dns_wire.specs.ReadingLemmas.{plain_ends};
ghost use Rattle.dns_edns.specs.OptionsLemmas.{everything_leaves};
ghost use Rattle.std.specs.Prelude.{◌≡◌, ℕ, List, [], ⊤};
ghost use Rattle.dns_wire.specs.Reading.{plain_at};
ghost use Rattle.dns_edns.specs.Options.{everything};

use dns_wire::{AsBytes, BuildBytes, ParseBytes, ParseError, TruncationError, put};

/// The data of an option of any code, as they are (RFC 6891 section 6.1.2).
#[derive(Clone, Copy, Debug, PartialEq, Eq, Hash)]
pub struct UnknownOptionData<'a> {
    /// The octets, without code and size.
    pub octets: &'a [u8],
}

impl AsBytes for UnknownOptionData<'_> {
    fn as_bytes(&self) -> &[u8] {
        self.octets
    }
}

impl<'a> ParseBytes<'a> for UnknownOptionData<'a> {
    ghost Seen = { List ℕ };

    ghost seen = { λ v. v.octets.now };

    ghost reads = { everything };

    ghost reads_at = { plain_at everything };

    ghost leaves_rest = { everything_leaves };

    ghost ends_within = { plain_ends everything everything_leaves };

    fn parse_bytes(bytes: &'a [u8]) -> Result<UnknownOptionData<'a>, ParseError> {
        Ok(UnknownOptionData { octets: bytes })
    }
}

impl BuildBytes for UnknownOptionData<'_> {
    ghost octets = { λ v. v.octets.now };

    fn build_at(&self, bytes: &mut [u8], start: usize) -> Result<usize, TruncationError> {
        put(self.octets, bytes, start)
    }

    fn built_bytes_size(&self) -> usize {
        self.octets.len()
    }
}
