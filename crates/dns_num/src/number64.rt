//! Numbers of eight octets.

ghost use Rattle.std.specs.Prelude.{◌≡◌, ◌^◌, ◌<◌, ◌↔◌, ℕ, [], Some, None, IsTrue, ⊤};
ghost use Rattle.std.specs.Int.{w64, to_be_bytes};
ghost use Rattle.std.specs.Fmt.{decimal};
ghost use Rattle.std.specs.Ordering.{nat_cmp};
ghost use Rattle.dns_wire.specs.Layout.{octets_writes};
ghost use Rattle.dns_wire.specs.ReadingLemmas.{number_leaves};
ghost use Rattle.dns_wire.specs.Reading.{number};

use dns_wire::{
    BuildBytes, BuildInMessage, NameCompressor, ParseError, ReadPlainValue, TruncationError,
    build_whole, put,
};
use std::cmp::Ordering;
use std::fmt;

/// A number of 64 bits. On the wire it is eight octets, the most significant first (RFC 1035 section 2.3.2).
#[derive(Clone, Copy, Debug, PartialEq, Eq, PartialOrd, Ord, Hash, Default)]
pub struct U64 {
    /// The number.
    pub value: u64,
}

impl U64 {
    /// The number as it is on the wire.
    pub const fn new(value: u64) -> Self
        ensures { result.value ≡ value }
    {
        U64 { value }
    }

    /// The plain number.
    pub const fn get(self) -> u64
        ensures { result ≡ self.value }
    {
        self.value
    }

    /// Puts another number in its place.
    pub const fn set(&mut self, value: u64)
        ensures { self.new.value ≡ value }
    {
        self.value = value;
    }

    /// Whether it is this plain number.
    pub fn eq_base(&self, other: u64) -> bool
        ensures { IsTrue result ↔ (self.now.value ≡ other) }
    {
        self.value == other
    }

    /// How it compares with a plain number.
    pub fn cmp_base(&self, other: u64) -> Ordering
        ensures { result ≡ nat_cmp self.now.value other }
    {
        self.value.cmp(&other)
    }

    /// How it compares with another, by number, and that both fit their width, which nothing else says of numbers
    /// after references.
    pub fn compare(&self, other: &U64) -> Ordering
        ensures order { result ≡ nat_cmp self.now.value other.now.value }
        ensures fits { (self.now.value < 2 ^ 64) × (other.now.value < 2 ^ 64) }
    {
        let left = self.value;
        let right = other.value;
        left.cmp(&right)
    }
}

impl From<u64> for U64 {
    ghost from_gives = { λ plain number. number.value ≡ plain };

    fn from(value: u64) -> U64 {
        U64 { value }
    }
}

impl From<U64> for u64 {
    ghost from_gives = { λ number plain. plain ≡ number.value };

    fn from(number: U64) -> u64 {
        number.value
    }
}

impl<'a> ReadPlainValue<'a> for U64 {
    ghost Seen = { ℕ };

    ghost seen = { λ v. v.value };

    ghost reads = { number w64 };

    ghost leaves_rest = { number_leaves w64 };

    fn read_plain(bytes: &'a [u8]) -> Result<(U64, &'a [u8]), ParseError> {
        match bytes.split_first_chunk::<8>() {
            Some((octets, rest)) => Ok((U64::new(u64::from_be_bytes(*octets)), rest)),
            None => Err(ParseError),
        }
    }
}

impl BuildBytes for U64 {
    ghost octets = { λ v. to_be_bytes w64 v.value };

    fn build_at(&self, bytes: &mut [u8], start: usize) -> Result<usize, TruncationError> {
        put(&self.value.to_be_bytes(), bytes, start)
    }

    fn built_bytes_size(&self) -> usize
        ensures { result ≡ 8 }
    {
        8
    }
}

/// Whole, with no name in it.
impl BuildInMessage for U64 {
    ghost writes = { λ v. octets_writes (to_be_bytes w64 v.value) };

    ghost layout_matches = { λ _. tt };

    fn build_in_message(
        &self,
        contents: &mut [u8],
        start: usize,
        compressor: &mut NameCompressor,
    ) -> Result<usize, TruncationError> {
        build_whole(self, contents, start, compressor)
    }
}

impl fmt::Display for U64 {
    ghost output = { λ v. Some (decimal v.value) };

    /// In decimal.
    fn fmt<W: fmt::Write>(&self, f: &mut fmt::Formatter<W>) -> fmt::Result {
        fmt::Display::fmt(&self.value, f)
    }
}
