//! A window of a bitmap.

ghost use Rattle.std.specs.Prelude.{◌≡◌, ◌≤◌, ◌<◌, ◌==◌, ◌+◌, ◌*◌, suc, ℕ, [], ◌∷◌, length, drop, slice_index, MatchOption, IfOk};
ghost use Rattle.dns_wire.specs.Reading.{Gives};
ghost use Rattle.dns_record.specs.TypeBitMaps.{window};
ghost use Rattle.dns_nsec.specs.Bitmaps.{bits_of, types_from};
ghost use Rattle.dns_nsec.specs.Seen.{window_seen};

use dns_record::RType;
use dns_wire::ParseError;

/// 256 types from 256 times the number on, and a bit for each, the top bit of the first octet for the first.
#[derive(Clone, Copy, Debug)]
pub(crate) struct Window<'a> {
    /// The number.
    pub number: u8,
    /// The octets of bits. What is after them is 0.
    pub bits: &'a [u8],
}

impl<'a> Window<'a> {
    /// A window without types.
    pub fn empty() -> Window<'a>
        ensures { result.bits.now ≡ [] }
    {
        Window {
            number: 0,
            bits: &[],
        }
    }

    /// Reads the window at the start, whose number is to be at least this one, and gives the octets after it.
    pub fn split(least: u16, bytes: &'a [u8]) -> Result<(Window<'a>, &'a [u8]), ParseError>
        ensures exact { Gives (λ x. (window_seen x.0, x.1.now)) result (window least bytes.entry.now) }
        ensures few { IfOk result (λ x. length x.0.bits.now ≤ 32) }
        ensures shorter { IfOk result (λ x. length x.1.now < length bytes.entry.now) }
    {
        let [number, size, trailing @ ..] = bytes else {
            return Err(ParseError);
        };
        let number = *number;
        let size = *size as usize;
        if (number as u16) < least || size == 0 || size > 32 || trailing.len() < size {
            return Err(ParseError);
        }
        let (bits, rest) = trailing.split_at(size);
        if bits[size - 1] == 0 {
            return Err(ParseError);
        }
        Ok((Window { number, bits }, rest))
    }

    /// Whether the bit at this place, counted from the top bit of the first octet, is 1.
    pub fn is_set(&self, place: usize) -> bool
        ensures { result ≡ (slice_index (bits_of self.now.bits.now) place == 1) }
    {
        match self.bits.get(place / 8) {
            Some(octet) => (*octet >> (7 - place % 8)) % 2 == 1,
            None => false,
        }
    }

    /// The type that the bit at this place represents.
    pub fn rtype(&self, place: usize) -> RType
        requires { place < 256 }
        ensures { result.code.value ≡ 256 * self.now.number + place }
    {
        RType::from(self.number as u16 * 256 + place as u16)
    }

    /// The first place from this one on at which the bit is 1.
    pub fn next_set(&self, from: usize) -> Option<usize>
        requires { length self.now.bits.now ≤ 32 }
        ensures { MatchOption result (types_from self.now.number self.now.bits.now from ≡ [])
            (λ place. (place < 256) × (types_from self.now.number self.now.bits.now from
            ≡ (256 * self.now.number + place) ∷ types_from self.now.number self.now.bits.now (place + 1))) }
    {
        let mut place = from;
        while place < 8 * self.bits.len() {
            if self.is_set(place) {
                return Some(place);
            }
            place += 1;
        }
        None
    }
}
