//! A name as a view over its octets.

ghost use Rattle.std.specs.Prelude.{◌≡◌, ◌+◌, ◌≤◌, ◌↔◌, [], ◌∷◌, ◌++◌, length, Option, Some, IfOk, IsTrue};
ghost use Rattle.std.proofs.Props.{props};
ghost use Rattle.dns_wire.specs.Octets.{Labels};
ghost use Rattle.dns_wire.specs.Reading.{Gives, all_of, plain_at};
ghost use Rattle.dns_wire.specs.ReadingLemmas.{plain_ends};
ghost use Rattle.dns_wire.proofs.NamesLemmas.{plain_name_leaves, plain_name_names};
ghost use Rattle.dns_wire.specs.Names.{plain_name, name_labels, wire};
ghost use Rattle.dns_wire.specs.Reversed.{relative_labels};

use crate::relative_name::RelativeName;
use dns_label::LabelIter;
use dns_wire::{
    AsBytes, BuildBytes, MAX_LABEL_SIZE, ParseBytes, ParseError, ParseName, SplitBytes,
    TruncationError, put, whole,
};

/// A name without pointers: labels of 1 to 63 octets, each after its length, and the root's length 0,
/// at most 255 octets in all (RFC 1035 section 3.1).
#[derive(Clone, Copy, Debug)]
pub struct Name<'a> {
    /// All the octets, the last of them the root's 0.
    pub slice: &'a [u8],
    ghost is_name: { all_of (plain_name slice.now) ≡ Some (name_labels slice.now) } by { Prim.hlevel props },
}

impl<'a> Name<'a> {
    /// The most octets of a name, the root's 0 included (RFC 1035 section 2.3.4).
    pub const MAX_SIZE: usize = 255;

    /// The root: a name without labels.
    pub fn root() -> Name<'a>
        ensures { name_labels result.slice.now ≡ [] }
    {
        Name { slice: &[0] }
    }

    /// The number of octets, from 1 to 255.
    pub fn len(&self) -> usize
        ensures octets { result ≡ length self.now.slice.now }
        ensures wire { result ≡ length (wire (name_labels self.now.slice.now)) }
        ensures short { result ≤ 255 }
    {
        self.as_bytes().len()
    }

    /// Whether there are no labels before the root.
    pub fn is_root(&self) -> bool
        ensures { IsTrue result ↔ (name_labels self.now.slice.now ≡ []) }
    {
        self.len() == 1
    }

    /// The octets: the labels, each after its length, and the root's 0.
    pub fn as_bytes(&self) -> &'a [u8]
        ensures octets { result.now ≡ self.now.slice.now }
        ensures name { all_of (plain_name result.now) ≡ Some (name_labels self.now.slice.now) }
        ensures wire { result.now ≡ wire (name_labels self.now.slice.now) }
        ensures short { length result.now ≤ 255 }
    {
        self.slice
    }

    /// The labels in order, the root's last, at most 128 in all.
    pub fn labels(&self) -> LabelIter<'a>
        ensures labels { result ≡ name_labels self.now.slice.now ++ [] ∷ [] }
        ensures few { length result ≤ 128 }
    {
        LabelIter::new(self.as_bytes())
    }

    /// The labels, from the first to the last.
    pub(crate) fn relative(&self) -> RelativeName<'a>
        ensures labels { relative_labels result.slice.now ≡ name_labels self.now.slice.now }
        ensures octets { length self.now.slice.now ≡ length result.slice.now + 1 }
        ensures short { length result.slice.now ≤ 254 }
    {
        let octets = self.as_bytes();
        let (labels, _root) = octets.split_at(octets.len() - 1);
        RelativeName { slice: labels }
    }
}

impl AsBytes for Name<'_> {
    fn as_bytes(&self) -> &[u8] {
        Name::as_bytes(self)
    }
}

impl<'a> ParseBytes<'a> for Name<'a> {
    ghost Seen = { Labels };

    ghost seen = { λ v. name_labels v.slice.now };

    ghost reads = { plain_name };

    ghost reads_at = { plain_at plain_name };

    ghost leaves_rest = { plain_name_leaves };

    ghost ends_within = { plain_ends plain_name plain_name_leaves };

    fn parse_bytes(bytes: &'a [u8]) -> Result<Name<'a>, ParseError> {
        whole(Name::split_bytes(bytes))
    }
}

impl<'a> SplitBytes<'a> for Name<'a> {
    fn split_bytes(bytes: &'a [u8]) -> Result<(Name<'a>, &'a [u8]), ParseError> {
        let mut end = 0;
        while end < bytes.len() && end < Name::MAX_SIZE {
            let size = bytes[end] as usize;
            if size == 0 {
                let (prefix, rest) = bytes.split_at(end + 1);
                return Ok((Name { slice: prefix }, rest));
            }
            if size > MAX_LABEL_SIZE || bytes.len() - end <= size {
                return Err(ParseError);
            }
            end += 1 + size;
        }
        Err(ParseError)
    }
}

impl<'a> BuildBytes for Name<'a> {
    ghost use Rattle.std.specs.Prelude.{⊤};
    ghost use Rattle.dns_wire.specs.Building.{Builds};

    ghost octets = { λ v. wire (name_labels v.slice.now) };

    fn build_at(&self, bytes: &mut [u8], start: usize) -> Result<usize, TruncationError> {
        put(self.as_bytes(), bytes, start)
    }

    /// The number of octets, from 1 to 255.
    fn built_bytes_size(&self) -> usize
        ensures size { result ≡ length (wire (name_labels self.now.slice.now)) }
        ensures short { result ≤ 255 }
    {
        self.len()
    }
}
