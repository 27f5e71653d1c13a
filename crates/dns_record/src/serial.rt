//! Serial numbers.

ghost use Rattle.dns_wire.specs.ReadingLemmas.{number_leaves};
ghost use Rattle.std.specs.Prelude.{◌≡◌, ◌≤ℤ◌, ◌+◌, ◌%◌, ◌^◌, ℕ, pos, [], Some, None, ⊤, length};
ghost use Rattle.std.specs.Int.{w32, to_be_bytes};
ghost use Rattle.std.specs.Fmt.{decimal};
ghost use Rattle.dns_wire.specs.Layout.{octets_writes};
ghost use Rattle.dns_wire.specs.Reading.{number};
ghost use Rattle.dns_record.specs.Serials.{serial_cmp};

use dns_num::U32;
use dns_wire::{
    BuildBytes, BuildInMessage, NameCompressor, ParseError, ReadPlainValue, SplitBytes,
    TruncationError, build_whole,
};
use std::cmp::Ordering;
use std::fmt;

/// A serial number, which begins again at 0: four octets on the wire (RFC 1982). It has no order that
/// could sort a list: see `partial_cmp`.
#[derive(Clone, Copy, Debug, PartialEq, Eq, Hash)]
pub struct Serial(pub U32);

impl Serial {
    /// The serial number of this value.
    pub fn new(value: u32) -> Serial
        ensures { result.0.value ≡ value }
    {
        Serial(U32 { value })
    }

    /// The value.
    pub fn get(&self) -> u32
        ensures { result ≡ self.now.0.value }
    {
        self.0.get()
    }

    /// The serial number that is that many ahead; 2^32 of them are none (RFC 1982 section 3.1).
    pub fn inc(self, num: i32) -> Serial
        requires { pos 0 ≤ℤ num }
        ensures { (n : ℕ) → num ≡ pos n → result.0.value ≡ (self.0.value + n) % 2 ^ 32 }
    {
        Serial::new(self.get().wrapping_add(num as u32))
    }

    /// How two serial numbers compare: less if the other is at most 2^31 - 1 ahead, greater if it is
    /// at most as much after, and not at all if it is 2^31 away (RFC 1982 section 3.2).
    pub fn partial_cmp(&self, other: &Serial) -> Option<Ordering>
        ensures { result ≡ serial_cmp self.now.0.value other.now.0.value }
    {
        match other.get().wrapping_sub(self.get()) {
            0 => Some(Ordering::Equal),
            serial_ahead if serial_ahead < 0x8000_0000 => Some(Ordering::Less),
            0x8000_0000 => None,
            _ => Some(Ordering::Greater),
        }
    }
}

impl From<u32> for Serial {
    ghost from_gives = { λ plain v. v.0.value ≡ plain };

    fn from(value: u32) -> Serial {
        Serial(U32 { value })
    }
}

impl From<Serial> for u32 {
    ghost from_gives = { λ v plain. plain ≡ v.0.value };

    fn from(value: Serial) -> u32 {
        value.0.get()
    }
}

impl<'a> ReadPlainValue<'a> for Serial {
    ghost Seen = { ℕ };

    ghost seen = { λ v. v.0.value };

    ghost reads = { number w32 };

    ghost leaves_rest = { number_leaves w32 };

    fn read_plain(bytes: &'a [u8]) -> Result<(Serial, &'a [u8]), ParseError> {
        let (number, rest) = U32::split_bytes(bytes)?;
        Ok((Serial(number), rest))
    }
}

impl BuildBytes for Serial {
    ghost octets = { λ v. to_be_bytes w32 v.0.value };

    fn build_at(&self, bytes: &mut [u8], start: usize) -> Result<usize, TruncationError> {
        self.0.build_at(bytes, start)
    }

    fn built_bytes_size(&self) -> usize
        ensures size { result ≡ length (to_be_bytes w32 self.now.0.value) }
        ensures fixed { result ≡ 4 }
    {
        self.0.built_bytes_size()
    }
}

/// Whole, with no name in it.
impl BuildInMessage for Serial {
    ghost writes = { λ v. octets_writes (to_be_bytes w32 v.0.value) };

    ghost layout_matches = { λ _. tt };

    fn build_in_message(
        &self,
        contents: &mut [u8],
        start: usize,
        compressor: &mut NameCompressor,
    ) -> Result<usize, TruncationError> {
        build_whole(self, contents, start, compressor)
    }
}

impl fmt::Display for Serial {
    ghost output = { λ v. Some (decimal v.0.value) };

    /// In decimal.
    fn fmt<W: fmt::Write>(&self, f: &mut fmt::Formatter<W>) -> fmt::Result {
        fmt::Display::fmt(&self.0, f)
    }
}
