//! Reading values from octets.

ghost use Rattle.std.specs.Prelude.{◌≡◌, ◌≤◌, ℕ, List, [], length, Option, Some, IfOk};
ghost use Rattle.dns_wire.specs.Octets.{Octets, Labels};
ghost use Rattle.dns_wire.specs.Reading.{Gives, LeavesRest, EndsWithin, all_of, all_at, plain_at, whole_of, whole_in, octet, octets};
ghost use Rattle.dns_wire.specs.Names.{IsName};
ghost use Rattle.dns_wire.specs.ReadingLemmas.{octet_leaves, octets_leave, whole_leaves, plain_ends};

use crate::error::ParseError;

/// A type whose values are read from octets.
pub trait ParseBytes<'a>: Sized + Drop {
    /// What is read: the value without where it lies in memory.
    ghost Seen: { Type 0 };

    /// What a value is seen as.
    ghost seen: { Self → Seen };

    /// The grammar: what is at the start of the octets, and the octets after it.
    ghost reads: { List ℕ → Option (Seen × List ℕ) };

    /// The grammar at a place in the contents of a message: what is there, and where it ends.
    ghost reads_at: { List ℕ → ℕ → Option (Seen × ℕ) };

    /// Reads the value that all the octets spell. `ParseError` comes exactly if they spell none.
    fn parse_bytes(bytes: &'a [u8]) -> Result<Self, ParseError>
        ensures { Gives seen result (all_of (reads bytes.now)) };

    /// What is left over is what follows: the octets without that many from the start.
    ghost leaves_rest: { LeavesRest reads };

    /// What is read in a message ends in it and not before its place, so that nothing is read from after
    /// the end.
    ghost ends_within: { EndsWithin reads_at };
}

/// A type whose values may be followed by other octets.
pub trait SplitBytes<'a>: ParseBytes<'a> {
    /// Reads the value at the start of the octets, and gives the octets after it. `ParseError` comes
    /// exactly if none is there.
    fn split_bytes(bytes: &'a [u8]) -> Result<(Self, &'a [u8]), ParseError>
        ensures exact { Gives (λ x. (Self.seen x.0, x.1.now)) result (Self.reads bytes.now) }
        ensures within { IfOk result (λ x. length x.1.now ≤ length bytes.now) };
}

/// A type whose values are read at a place in the contents of a message, which are its octets after the
/// header and may be pointed to.
pub trait ParseMessageBytes<'a>: ParseBytes<'a> {
    /// Reads the value from the place to the end of the contents. `ParseError` comes exactly
    /// if there is none.
    fn parse_message_bytes(contents: &'a [u8], start: usize) -> Result<Self, ParseError>
        ensures { Gives Self.seen result (all_at contents.now (Self.reads_at contents.now start)) };
}

/// A type whose values may be followed by others in a message.
pub trait SplitMessageBytes<'a>: SplitBytes<'a> + ParseMessageBytes<'a> {
    /// Reads the value at the place, and gives the place where it ends. `ParseError` comes exactly if
    /// none is there.
    fn split_message_bytes(contents: &'a [u8], start: usize) -> Result<(Self, usize), ParseError>
        ensures exact { Gives (λ x. (Self.seen x.0, x.1)) result (Self.reads_at contents.now start) }
        ensures within { IfOk result (λ x. (start ≤ x.1) × (x.1 ≤ length contents.now)) };
}

/// A type whose values are names, in whatever layout, with pointers followed or as they are.
pub trait ParseName<'a>: SplitBytes<'a> {
    /// The labels, without the root; of a name as it is, those before its pointer.
    ghost labels: { Self → Labels };

    /// How many labels there are, at most 127.
    fn label_count(&self) -> usize
        ensures count { result ≡ length (labels self.now) }
        ensures few { result ≤ 127 };

    /// The labels of what was read are a name (RFC 1035 section 2.3.4).
    ghost names: { (name : Self) (bytes rest : Octets) →
        Self.reads bytes ≡ Some (Self.seen name, rest) → IsName (labels name) };

    /// The labels of what was read in a message are a name (RFC 1035 section 2.3.4).
    ghost names_at: { (name : Self) (contents : Octets) (at end : ℕ) →
        Self.reads_at contents at ≡ Some (Self.seen name, end) → IsName (labels name) };
}

/// The value that was read, if no octet is left over. `ParseError` comes exactly if none was read or
/// if octets are left over.
pub fn whole<T: Drop>(read: Result<(T, &[u8]), ParseError>) -> Result<T, ParseError>
    ensures { result ≡ whole_of read.entry }
{
    match read {
        Ok((value, [])) => Ok(value),
        _ => Err(ParseError),
    }
}

/// The value that was read in a message, if it ends with the contents. `ParseError` comes exactly if
/// none was read or if it ends before.
pub fn whole_message<T: Drop>(
    read: Result<(T, usize), ParseError>,
    contents: &[u8],
) -> Result<T, ParseError>
    ensures { result ≡ whole_in contents.now read }
{
    match read {
        Ok((value, end)) if end == contents.len() => Ok(value),
        _ => Err(ParseError),
    }
}

/// That many octets from the start, and those after them. `ParseError` comes exactly if there are fewer.
pub fn split_octets(bytes: &[u8], size: usize) -> Result<(&[u8], &[u8]), ParseError>
    ensures { Gives (λ x. (x.0.now, x.1.now)) result (octets size bytes.now) }
{
    if bytes.len() < size {
        return Err(ParseError);
    }
    Ok(bytes.split_at(size))
}

/// Reads the value that all the octets from the place on spell, with no pointers. `ParseError` comes
/// exactly if they spell none, or the place is after the end.
pub fn parse_without_compression<'a, T: ParseBytes<'a>>(
    contents: &'a [u8],
    start: usize,
) -> Result<T, ParseError>
    ensures { Gives T.seen result (all_at contents.now (plain_at T.reads contents.now start)) }
{
    if contents.len() < start {
        return Err(ParseError);
    }
    T::parse_bytes(&contents[start..])
}

/// Reads the value at the place, with no pointers, and gives the place where it ends. `ParseError` comes
/// exactly if none is there, or the place is after the end.
pub fn split_without_compression<'a, T: SplitBytes<'a>>(
    contents: &'a [u8],
    start: usize,
) -> Result<(T, usize), ParseError>
    ensures exact { Gives (λ x. (T.seen x.0, x.1)) result (plain_at T.reads contents.now start) }
    ensures within { IfOk result (λ x. (start ≤ x.1) × (x.1 ≤ length contents.now)) }
{
    if contents.len() < start {
        return Err(ParseError);
    }
    let (value, rest) = T::split_bytes(&contents[start..])?;
    Ok((value, contents.len() - rest.len()))
}

/// One octet.
impl<'a> ParseBytes<'a> for u8 {
    ghost Seen = { ℕ };

    ghost seen = { λ v. v };

    ghost reads = { octet };

    ghost reads_at = { plain_at octet };

    ghost leaves_rest = { octet_leaves };

    ghost ends_within = { plain_ends octet octet_leaves };

    fn parse_bytes(bytes: &'a [u8]) -> Result<u8, ParseError> {
        match bytes {
            [byte] => Ok(*byte),
            _ => Err(ParseError),
        }
    }
}

impl<'a> SplitBytes<'a> for u8 {
    fn split_bytes(bytes: &'a [u8]) -> Result<(u8, &'a [u8]), ParseError> {
        match bytes {
            [byte, rest @ ..] => Ok((*byte, rest)),
            [] => Err(ParseError),
        }
    }
}

impl<'a> ParseMessageBytes<'a> for u8 {
    fn parse_message_bytes(contents: &'a [u8], start: usize) -> Result<u8, ParseError> {
        parse_without_compression(contents, start)
    }
}

impl<'a> SplitMessageBytes<'a> for u8 {
    fn split_message_bytes(contents: &'a [u8], start: usize) -> Result<(u8, usize), ParseError> {
        split_without_compression(contents, start)
    }
}

/// All the octets, as they are.
impl<'a> ParseBytes<'a> for &'a [u8] {
    ghost Seen = { List ℕ };

    ghost seen = { λ v. v.now };

    ghost reads = { λ bytes. Some (bytes, []) };

    ghost reads_at = { plain_at (λ bytes. Some (bytes, [])) };

    ghost leaves_rest = { whole_leaves };

    ghost ends_within = { plain_ends (λ bytes. Some (bytes, [])) whole_leaves };

    fn parse_bytes(bytes: &'a [u8]) -> Result<&'a [u8], ParseError> {
        Ok(bytes)
    }
}

impl<'a> ParseMessageBytes<'a> for &'a [u8] {
    fn parse_message_bytes(contents: &'a [u8], start: usize) -> Result<&'a [u8], ParseError> {
        parse_without_compression(contents, start)
    }
}

/// N octets.
impl<'a, const N: usize> ParseBytes<'a> for [u8; N] {
    ghost Seen = { List ℕ };

    ghost seen = { λ v. v };

    ghost reads = { octets N };

    ghost reads_at = { plain_at (octets N) };

    ghost leaves_rest = { octets_leave N };

    ghost ends_within = { plain_ends (octets N) (octets_leave N) };

    fn parse_bytes(bytes: &'a [u8]) -> Result<[u8; N], ParseError> {
        match bytes.split_first_chunk::<N>() {
            Some((array, [])) => Ok(*array),
            _ => Err(ParseError),
        }
    }
}

impl<'a, const N: usize> SplitBytes<'a> for [u8; N] {
    fn split_bytes(bytes: &'a [u8]) -> Result<([u8; N], &'a [u8]), ParseError> {
        match bytes.split_first_chunk::<N>() {
            Some((array, rest)) => Ok((*array, rest)),
            None => Err(ParseError),
        }
    }
}

impl<'a, const N: usize> ParseMessageBytes<'a> for [u8; N] {
    fn parse_message_bytes(contents: &'a [u8], start: usize) -> Result<[u8; N], ParseError> {
        parse_without_compression(contents, start)
    }
}

impl<'a, const N: usize> SplitMessageBytes<'a> for [u8; N] {
    fn split_message_bytes(
        contents: &'a [u8],
        start: usize,
    ) -> Result<([u8; N], usize), ParseError> {
        split_without_compression(contents, start)
    }
}
