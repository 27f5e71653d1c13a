//! Octets that one octet can count.

ghost use Rattle.dns_wire.specs.ReadingLemmas.{plain_ends};
ghost use Rattle.dns_record.specs.DataLemmas.{character_string_leaves};
ghost use Rattle.std.specs.Prelude.{◌≡◌, ◌≤◌, ◌∷◌, ℕ, List, [], length, ⊤};
ghost use Rattle.dns_wire.specs.Reading.{plain_at};
ghost use Rattle.dns_record.specs.CharacterStrings.{character_string};

use dns_num::SizePrefixed;
use dns_wire::{BuildBytes, ParseBytes, ParseError, SplitBytes, TruncationError, put, whole};

/// At most 255 octets. On the wire they come after an octet with their number (RFC 5155 section 3.2).
#[derive(Clone, Copy, Debug, PartialEq, Eq, Hash)]
pub(crate) struct ShortOctets<'a> {
    /// The octets, without their number.
    pub octets: &'a [u8],
    ghost short: { length octets.now ≤ 255 },
}

impl<'a> ShortOctets<'a> {
    /// The data that are to be written after their number.
    pub fn new(prefixed: SizePrefixed<u8, &'a [u8]>) -> ShortOctets<'a>
        requires { length prefixed.now ≤ 255 }
        ensures { result.octets.now ≡ prefixed.entry.now }
    {
        ShortOctets {
            octets: prefixed.into_data(),
        }
    }

    /// The same as data after their number.
    pub fn prefixed(&self) -> SizePrefixed<u8, &'a [u8]>
        ensures { result.now ≡ self.now.octets.now }
    {
        SizePrefixed::new(self.octets)
    }

    /// What is compared first and last: on the wire their number comes before them.
    pub fn order_key(&self) -> (usize, &'a [u8])
        ensures { result ≡ record { 0 = length self.now.octets.now; 1 = self.now.octets } }
    {
        (self.octets.len(), self.octets)
    }
}

impl<'a> ParseBytes<'a> for ShortOctets<'a> {
    ghost Seen = { List ℕ };

    ghost seen = { λ v. v.octets.now };

    ghost reads = { character_string };

    ghost reads_at = { plain_at character_string };

    ghost leaves_rest = { character_string_leaves };

    ghost ends_within = { plain_ends character_string character_string_leaves };

    fn parse_bytes(bytes: &'a [u8]) -> Result<ShortOctets<'a>, ParseError> {
        whole(ShortOctets::split_bytes(bytes))
    }
}

impl<'a> SplitBytes<'a> for ShortOctets<'a> {
    fn split_bytes(bytes: &'a [u8]) -> Result<(ShortOctets<'a>, &'a [u8]), ParseError> {
        let [size, trailing @ ..] = bytes else {
            return Err(ParseError);
        };
        let size = *size as usize;
        if trailing.len() < size {
            return Err(ParseError);
        }
        let (octets, rest) = trailing.split_at(size);
        Ok((ShortOctets { octets }, rest))
    }
}

impl BuildBytes for ShortOctets<'_> {
    ghost octets = { λ v. length v.octets.now ∷ v.octets.now };

    fn build_at(&self, bytes: &mut [u8], start: usize) -> Result<usize, TruncationError> {
        let size = self.octets.len() as u8;
        let body = size.build_at(bytes, start)?;
        put(self.octets, bytes, body)
    }

    fn built_bytes_size(&self) -> usize {
        1 + self.octets.len()
    }
}
