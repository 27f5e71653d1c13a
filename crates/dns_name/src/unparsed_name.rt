//! A name as it is in a message, whatever its pointer leads to.

ghost use Rattle.std.specs.Prelude.{◌≡◌, ◌≤◌, ◌<◌, ◌^◌, ◌↔◌, List, [], ◌∷◌, length, take, drop, Option, Some, None, IfOk, OnErr, IsTrue, MatchOption};
ghost use Rattle.std.proofs.Props.{props};
ghost use Rattle.dns_wire.specs.Reading.{Gives, all_of, all_at, plain_at};
ghost use Rattle.dns_label.specs.Labels.{contents_of};
ghost use Rattle.dns_name.specs.UnparsedLemmas.{unparsed_leaves, unparsed_ends, unparsed_names, unparsed_names_at};
ghost use Rattle.dns_name.specs.Unparsed.{Unparsed, unparsed_wire, end_offset, alone_offset, unparsed_name, unparsed_of, unparsed_at};

use dns_label::Label;
use dns_wire::{
    AsBytes, BuildBytes, HEADER_SIZE, MAX_LABEL_SIZE, POINTER_TAG, ParseBytes, ParseError,
    ParseMessageBytes, SplitBytes, SplitMessageBytes, TruncationError, pointer_offset, put, whole,
    whole_message,
};

/// Labels of 1 to 63 octets, each after its length, and then the root's length 0 or a pointer, which begin
/// at octet 254 at the latest, counted from 0. What a pointer leads to is not looked at.
#[derive(Clone, Copy, Debug)]
pub struct UnparsedName<'a> {
    /// All the octets, the last of them the root's 0 or a pointer's second octet.
    pub slice: &'a [u8],
    ghost is_name: { all_of (unparsed_name slice.now) ≡ Some (unparsed_of slice.now) } by { Prim.hlevel props },
}

impl<'a> UnparsedName<'a> {
    /// The most octets of an unparsed name: a name has 255 octets, and a pointer in place of the root takes
    /// one more.
    pub const MAX_SIZE: usize = 256;

    /// The root: no labels, and no pointer.
    pub fn root() -> UnparsedName<'a>
        ensures { unparsed_of result.slice.now ≡ ([], None) }
    {
        UnparsedName { slice: &[0] }
    }

    /// The number of octets, from 1 to 256.
    pub fn len(&self) -> usize
        ensures octets { result ≡ length self.now.slice.now }
        ensures wire { result ≡ length (unparsed_wire (unparsed_of self.now.slice.now)) }
        ensures short { result ≤ 256 }
    {
        self.as_bytes().len()
    }

    /// Whether the root alone is here.
    pub fn is_root(&self) -> bool
        ensures { IsTrue result ↔ (unparsed_of self.now.slice.now ≡ ([], None)) }
    {
        self.len() == 1
    }

    /// The octets: the labels, each after its length, and the root's 0 or a pointer's two octets.
    pub fn as_bytes(&self) -> &'a [u8]
        ensures octets { result.now ≡ self.now.slice.now }
        ensures name { all_of (unparsed_name result.now) ≡ Some (unparsed_of self.now.slice.now) }
        ensures wire { result.now ≡ unparsed_wire (unparsed_of self.now.slice.now) }
        ensures short { length result.now ≤ 256 }
    {
        self.slice
    }

    /// Where the pointer leads, counted from the start of the message, if one pointer is all that is
    /// here. The offset has 14 bits.
    pub fn pointer_value(&self) -> Option<u16>
        ensures { result ≡ alone_offset (unparsed_of self.now.slice.now) }
    {
        let high = self.slice[0];
        if high < POINTER_TAG {
            return None;
        }
        Some(pointer_offset(high, self.slice[1]) as u16)
    }

    /// The first label, and the name after it; `None` if the root or one pointer is all that is here.
    pub fn split_first(&self) -> Option<(Label<'a>, UnparsedName<'a>)>
        ensures { MatchOption result ((unparsed_of self.now.slice.now).0 ≡ [])
            (λ x. unparsed_of self.now.slice.now ≡ (contents_of x.0.slice.now ∷ (unparsed_of x.1.slice.now).0, (unparsed_of x.1.slice.now).1)) }
    {
        let size = self.slice[0];
        if size == 0 || size >= POINTER_TAG {
            return None;
        }
        let (label, rest) = self.slice.split_at(1 + size as usize);
        Some((Label { slice: label }, UnparsedName { slice: rest }))
    }
}

impl AsBytes for UnparsedName<'_> {
    fn as_bytes(&self) -> &[u8] {
        UnparsedName::as_bytes(self)
    }
}

/// Goes over the labels of the unparsed name at the start, and gives the place where it ends and where its
/// pointer leads.
fn read_unparsed(bytes: &[u8]) -> Result<(usize, Option<usize>), ParseError>
    ensures read { IfOk result (λ x. unparsed_name bytes.now ≡ Some (unparsed_of (take x.0 bytes.now), drop x.0 bytes.now)) }
    ensures whole { IfOk result (λ x. all_of (unparsed_name (take x.0 bytes.now)) ≡ Some (unparsed_of (take x.0 bytes.now))) }
    ensures pointer { IfOk result (λ x. end_offset (unparsed_of (take x.0 bytes.now)) ≡ x.1) }
    ensures within { IfOk result (λ x. x.0 ≤ length bytes.now) }
    ensures refused { OnErr result (unparsed_name bytes.now ≡ None) }
{
    let mut at = 0;
    while at < bytes.len() && at < UnparsedName::MAX_SIZE - 1 {
        let octet = bytes[at];
        if octet == 0 {
            return Ok((at + 1, None));
        }
        let left = bytes.len() - at;
        if octet >= POINTER_TAG {
            if left < 2 {
                return Err(ParseError);
            }
            let offset = pointer_offset(octet, bytes[at + 1]);
            return Ok((at + 2, Some(offset)));
        }
        let size = octet as usize;
        if size > MAX_LABEL_SIZE || left <= size {
            return Err(ParseError);
        }
        at += 1 + size;
    }
    Err(ParseError)
}

/// A name whose pointer may lead anywhere.
impl<'a> ParseBytes<'a> for UnparsedName<'a> {
    ghost Seen = { Unparsed };

    ghost seen = { λ v. unparsed_of v.slice.now };

    ghost reads = { unparsed_name };

    ghost reads_at = { unparsed_at };

    ghost leaves_rest = { unparsed_leaves };

    ghost ends_within = { unparsed_ends };

    fn parse_bytes(bytes: &'a [u8]) -> Result<UnparsedName<'a>, ParseError> {
        whole(UnparsedName::split_bytes(bytes))
    }
}

impl<'a> SplitBytes<'a> for UnparsedName<'a> {
    fn split_bytes(bytes: &'a [u8]) -> Result<(UnparsedName<'a>, &'a [u8]), ParseError> {
        let (end, _pointer) = read_unparsed(bytes)?;
        let (name, rest) = bytes.split_at(end);
        Ok((UnparsedName { slice: name }, rest))
    }
}

/// A name whose pointer leads to a place before it, after the message's header.
impl<'a> ParseMessageBytes<'a> for UnparsedName<'a> {
    fn parse_message_bytes(
        contents: &'a [u8],
        start: usize,
    ) -> Result<UnparsedName<'a>, ParseError> {
        whole_message(UnparsedName::split_message_bytes(contents, start), contents)
    }
}

impl<'a> SplitMessageBytes<'a> for UnparsedName<'a> {
    fn split_message_bytes(
        contents: &'a [u8],
        start: usize,
    ) -> Result<(UnparsedName<'a>, usize), ParseError> {
        if contents.len() < start {
            return Err(ParseError);
        }
        let (_before, bytes) = contents.split_at(start);
        let (size, pointer) = read_unparsed(bytes)?;
        if let Some(offset) = pointer {
            if offset < HEADER_SIZE || start <= offset - HEADER_SIZE {
                return Err(ParseError);
            }
        }
        let (name, _rest) = bytes.split_at(size);
        Ok((UnparsedName { slice: name }, start + size))
    }
}

/// The octets as they are.
impl BuildBytes for UnparsedName<'_> {
    ghost use Rattle.std.specs.Prelude.{⊤};
    ghost use Rattle.dns_wire.specs.Building.{Builds};

    ghost octets = { λ v. unparsed_wire (unparsed_of v.slice.now) };

    fn build_at(&self, bytes: &mut [u8], start: usize) -> Result<usize, TruncationError> {
        put(self.as_bytes(), bytes, start)
    }

    /// The number of octets, from 1 to 256.
    fn built_bytes_size(&self) -> usize
        ensures size { result ≡ length (unparsed_wire (unparsed_of self.now.slice.now)) }
        ensures short { result ≤ 256 }
    {
        self.len()
    }
}
