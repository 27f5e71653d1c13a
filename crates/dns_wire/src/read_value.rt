//! One reading after the four calls that read.

ghost use Rattle.std.specs.Prelude.{◌≡◌, ◌≤◌, ℕ, List, length, Option, Some, IfOk};
ghost use Rattle.dns_wire.specs.Reading.{Gives, LeavesRest, EndsWithin, plain_at};
ghost use Rattle.dns_wire.specs.ReadingLemmas.{plain_ends};

use crate::error::ParseError;
use crate::parse::{
    ParseBytes, ParseMessageBytes, SplitBytes, SplitMessageBytes, split_without_compression, whole,
    whole_message,
};

/// A type whose values are read at the start of octets. With it come `ParseBytes` and `SplitBytes`.
pub trait ReadValue<'a>: Sized + Drop {
    /// What is read: the value without where it lies in memory.
    ghost Seen: { Type 0 };

    /// What a value is seen as.
    ghost seen: { Self → Seen };

    /// The grammar: what is at the start of the octets, and the octets after it.
    ghost reads: { List ℕ → Option (Seen × List ℕ) };

    /// The grammar at a place in the contents of a message: what is there, and where it ends.
    ghost reads_at: { List ℕ → ℕ → Option (Seen × ℕ) };

    /// Reads the value at the start of the octets, and gives the octets after it. `ParseError` comes
    /// exactly if none is there.
    fn read_prefix(bytes: &'a [u8]) -> Result<(Self, &'a [u8]), ParseError>
        ensures exact { Gives (λ x. (seen x.0, x.1.now)) result (reads bytes.now) }
        ensures within { IfOk result (λ x. length x.1.now ≤ length bytes.now) };

    /// What is left over is what follows: the octets without that many from the start.
    ghost leaves_rest: { LeavesRest reads };

    /// What is read in a message ends in it and not before its place.
    ghost ends_within: { EndsWithin reads_at };
}

/// A type whose values are read at a place in the contents of a message. With it come `ParseMessageBytes`
/// and `SplitMessageBytes`.
pub trait ReadMessageValue<'a>: ReadValue<'a> {
    /// Reads the value at the place, and gives the place where it ends. `ParseError` comes exactly if
    /// none is there.
    fn read_in_message(contents: &'a [u8], start: usize) -> Result<(Self, usize), ParseError>
        ensures exact { Gives (λ x. (Self.seen x.0, x.1)) result (Self.reads_at contents.now start) }
        ensures within { IfOk result (λ x. (start ≤ x.1) × (x.1 ≤ length contents.now)) };
}

impl<'a, T: ReadValue<'a>> ParseBytes<'a> for T {
    ghost Seen = { T.Seen };

    ghost seen = { T.seen };

    ghost reads = { T.reads };

    ghost reads_at = { T.reads_at };

    ghost leaves_rest = { T.leaves_rest };

    ghost ends_within = { T.ends_within };

    fn parse_bytes(bytes: &'a [u8]) -> Result<T, ParseError> {
        whole(T::read_prefix(bytes))
    }
}

impl<'a, T: ReadValue<'a>> SplitBytes<'a> for T {
    fn split_bytes(bytes: &'a [u8]) -> Result<(T, &'a [u8]), ParseError> {
        T::read_prefix(bytes)
    }
}

impl<'a, T: ReadMessageValue<'a>> ParseMessageBytes<'a> for T {
    fn parse_message_bytes(contents: &'a [u8], start: usize) -> Result<T, ParseError> {
        whole_message(T::read_in_message(contents, start), contents)
    }
}

impl<'a, T: ReadMessageValue<'a>> SplitMessageBytes<'a> for T {
    fn split_message_bytes(contents: &'a [u8], start: usize) -> Result<(T, usize), ParseError> {
        T::read_in_message(contents, start)
    }
}

/// A type whose values are read in a message as anywhere else, since they follow no pointers. With it come
/// `ReadValue` and `ReadMessageValue`.
pub trait ReadPlainValue<'a>: Sized + Drop {
    /// What is read: the value without where it lies in memory.
    ghost Seen: { Type 0 };

    /// What a value is seen as.
    ghost seen: { Self → Seen };

    /// The grammar: what is at the start of the octets, and the octets after it.
    ghost reads: { List ℕ → Option (Seen × List ℕ) };

    /// Reads the value at the start of the octets, and gives the octets after it. `ParseError` comes
    /// exactly if none is there.
    fn read_plain(bytes: &'a [u8]) -> Result<(Self, &'a [u8]), ParseError>
        ensures exact { Gives (λ x. (seen x.0, x.1.now)) result (reads bytes.now) }
        ensures within { IfOk result (λ x. length x.1.now ≤ length bytes.now) };

    /// What is left over is what follows: the octets without that many from the start.
    ghost leaves_rest: { LeavesRest reads };
}

impl<'a, T: ReadPlainValue<'a>> ReadValue<'a> for T {
    ghost Seen = { T.Seen };

    ghost seen = { T.seen };

    ghost reads = { T.reads };

    ghost reads_at = { plain_at T.reads };

    ghost leaves_rest = { T.leaves_rest };

    ghost ends_within = { plain_ends T.reads T.leaves_rest };

    fn read_prefix(bytes: &'a [u8]) -> Result<(T, &'a [u8]), ParseError> {
        T::read_plain(bytes)
    }
}

impl<'a, T: ReadPlainValue<'a>> ReadMessageValue<'a> for T {
    fn read_in_message(contents: &'a [u8], start: usize) -> Result<(T, usize), ParseError> {
        split_without_compression(contents, start)
    }
}
