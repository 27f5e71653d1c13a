//! Numbers of two octets.

ghost use Rattle.std.specs.Prelude.{◌≡◌, ◌<◌, ◌^◌, ◌↔◌, ℕ, [], Some, None, IsTrue, ⊤};
ghost use Rattle.std.specs.Int.{w16, to_be_bytes};
ghost use Rattle.std.specs.Fmt.{decimal};
ghost use Rattle.std.specs.Ordering.{nat_cmp};
ghost use Rattle.std.specs.Result.{OkIff};
ghost use Rattle.dns_wire.specs.Layout.{octets_writes};
ghost use Rattle.dns_wire.specs.ReadingLemmas.{number_leaves};
ghost use Rattle.dns_wire.specs.Reading.{number};

use dns_wire::{
    BuildBytes, BuildInMessage, NameCompressor, ParseError, ReadPlainValue, TruncationError,
    build_whole, put,
};
use std::cmp::Ordering;
use std::fmt;
use std::num::TryFromIntError;

/// A number of 16 bits. On the wire it is two octets, the most significant first (RFC 1035 section 2.3.2).
#[derive(Clone, Copy, Debug, PartialEq, Eq, PartialOrd, Ord, Hash, Default)]
pub struct U16 {
    /// The number.
    pub value: u16,
}

impl U16 {
    /// The number as it is on the wire.
    pub const fn new(value: u16) -> Self
        ensures { result.value ≡ value }
    {
        U16 { value }
    }

    /// The plain number.
    pub const fn get(self) -> u16
        ensures { result ≡ self.value }
    {
        self.value
    }

    /// Puts another number in its place.
    pub const fn set(&mut self, value: u16)
        ensures { self.new.value ≡ value }
    {
        self.value = value;
    }

    /// Whether it is this plain number.
    pub fn eq_base(&self, other: u16) -> bool
        ensures { IsTrue result ↔ (self.now.value ≡ other) }
    {
        self.value == other
    }

    /// How it compares with a plain number.
    pub fn cmp_base(&self, other: u16) -> Ordering
        ensures { result ≡ nat_cmp self.now.value other }
    {
        self.value.cmp(&other)
    }

    /// How it compares with another, by number, and that both fit their width, which nothing else says of numbers
    /// after references.
    pub fn compare(&self, other: &U16) -> Ordering
        ensures order { result ≡ nat_cmp self.now.value other.now.value }
        ensures fits { (self.now.value < 2 ^ 16) × (other.now.value < 2 ^ 16) }
    {
        let left = self.value;
        let right = other.value;
        left.cmp(&right)
    }
}

impl From<u16> for U16 {
    ghost from_gives = { λ plain number. number.value ≡ plain };

    fn from(value: u16) -> U16 {
        U16 { value }
    }
}

impl From<U16> for u16 {
    ghost from_gives = { λ number plain. plain ≡ number.value };

    fn from(number: U16) -> u16 {
        number.value
    }
}

impl From<U16> for usize {
    ghost from_gives = { λ number plain. plain ≡ number.value };

    fn from(number: U16) -> usize {
        number.value as usize
    }
}

/// A size as a number on the wire. It is refused exactly above 65,535.
impl TryFrom<usize> for U16 {
    type Error = TryFromIntError;

    ghost try_from_gives = { λ plain tried. OkIff tried (plain < 2 ^ 16) (record { value = plain }) };

    fn try_from(value: usize) -> Result<U16, TryFromIntError> {
        let value = u16::try_from(value)?;
        Ok(U16 { value })
    }
}

impl<'a> ReadPlainValue<'a> for U16 {
    ghost Seen = { ℕ };

    ghost seen = { λ v. v.value };

    ghost reads = { number w16 };

    ghost leaves_rest = { number_leaves w16 };

    fn read_plain(bytes: &'a [u8]) -> Result<(U16, &'a [u8]), ParseError> {
        match bytes.split_first_chunk::<2>() {
            Some((octets, rest)) => Ok((U16::new(u16::from_be_bytes(*octets)), rest)),
            None => Err(ParseError),
        }
    }
}

impl BuildBytes for U16 {
    ghost octets = { λ v. to_be_bytes w16 v.value };

    fn build_at(&self, bytes: &mut [u8], start: usize) -> Result<usize, TruncationError> {
        put(&self.value.to_be_bytes(), bytes, start)
    }

    fn built_bytes_size(&self) -> usize
        ensures { result ≡ 2 }
    {
        2
    }
}

/// Whole, with no name in it.
impl BuildInMessage for U16 {
    ghost writes = { λ v. octets_writes (to_be_bytes w16 v.value) };

    ghost layout_matches = { λ _. tt };

    fn build_in_message(
        &self,
        contents: &mut [u8],
        start: usize,
        compressor: &mut NameCompressor,
    ) -> Result<usize, TruncationError> {
        build_whole(self, contents, start, compressor)
    }
}

impl fmt::Display for U16 {
    ghost output = { λ v. Some (decimal v.value) };

    /// In decimal.
    fn fmt<W: fmt::Write>(&self, f: &mut fmt::Formatter<W>) -> fmt::Result {
        fmt::Display::fmt(&self.value, f)
    }
}
