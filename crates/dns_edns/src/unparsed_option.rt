//! Options whose data are not read.

ghost use Rattle.dns_wire.specs.ReadingLemmas.{plain_ends};
ghost use Rattle.dns_edns.specs.OptionsLemmas.{option_leaves};
ghost use Rattle.std.specs.Prelude.{◌≡◌, ◌<◌, ◌^◌, ℕ, List, [], length};
ghost use Rattle.dns_wire.specs.Reading.{plain_at};
ghost use Rattle.dns_record.specs.Options.{OptionSeen, option};
ghost use Rattle.dns_edns.specs.Options.{option_octets};

use crate::option_code::OptionCode;
use dns_num::{SizePrefixed, U16};
use dns_wire::{BuildBytes, ParseBytes, ParseError, SplitBytes, TruncationError, whole};

/// An option whose data are not read: its code, and its data after their size (RFC 6891 section 6.1.2).
#[derive(Clone, Copy, Debug, PartialEq, Eq, Hash)]
pub struct UnparsedEdnsOption<'a> {
    /// What the option is.
    pub code: OptionCode,
    /// The data, at most 65,535 octets if it is written.
    pub content: SizePrefixed<U16, &'a [u8]>,
}

impl<'a> ParseBytes<'a> for UnparsedEdnsOption<'a> {
    ghost Seen = { OptionSeen };

    ghost seen = { λ v. record { code = v.code.code.value; content = v.content.now } };

    ghost reads = { option };

    ghost reads_at = { plain_at option };

    ghost leaves_rest = { option_leaves };

    ghost ends_within = { plain_ends option option_leaves };

    fn parse_bytes(bytes: &'a [u8]) -> Result<UnparsedEdnsOption<'a>, ParseError> {
        whole(UnparsedEdnsOption::split_bytes(bytes))
    }
}

impl<'a> SplitBytes<'a> for UnparsedEdnsOption<'a> {
    #[tactic(auto, unfolding(dns_num::specs::Prefixed::prefixed))]
    fn split_bytes(bytes: &'a [u8]) -> Result<(UnparsedEdnsOption<'a>, &'a [u8]), ParseError> {
        let (code, rest) = OptionCode::split_bytes(bytes)?;
        let (content, rest) = <SizePrefixed<U16, &'a [u8]>>::split_bytes(rest)?;
        Ok((UnparsedEdnsOption { code, content }, rest))
    }
}

/// `TruncationError` also comes if the data are more than 65,535 octets.
impl BuildBytes for UnparsedEdnsOption<'_> {
    ghost octets = { λ v. option_octets v.code.code.value v.content.now };

    ghost fits = { λ v. length v.content.now < 2 ^ 16 };

    fn build_at(&self, bytes: &mut [u8], start: usize) -> Result<usize, TruncationError> {
        (&self.code, &self.content).build_at(bytes, start)
    }

    fn built_bytes_size(&self) -> usize {
        4 + self.content.inner().len()
    }
}
