//! A label as a view over its octets.

ghost use Rattle.std.specs.Prelude.{◌≡◌, ◌≤◌, ◌↔◌, ℕ, List, [], ◌∷◌, length, codes, Option, Some, IsTrue};
ghost use Rattle.std.proofs.Props.{props};
ghost use Rattle.dns_wire.specs.Reading.{all_of};
ghost use Rattle.dns_label.specs.LabelsLemmas.{label_leaves};
ghost use Rattle.dns_label.specs.Labels.{plain_label, contents_of, label_wire};

use crate::label_buf::LabelBuf;
use dns_wire::{
    AsBytes, BuildBytes, BuildInMessage, NameCompressor, ParseError, ReadPlainValue,
    TruncationError, build_whole, put,
};

/// A label: a length of at most 63, and that many octets (RFC 1035 section 3.1). What contracts see of it
/// are the octets after the length, its contents.
#[derive(Clone, Copy, Debug)]
pub struct Label<'a> {
    /// The length octet and the contents.
    pub slice: &'a [u8],
    ghost is_label: { all_of (plain_label slice.now) ≡ Some (contents_of slice.now) } by { Prim.hlevel props },
}

impl<'a> Label<'a> {
    /// The most octets of a label, its length octet not counted (RFC 1035 section 2.3.4).
    pub const MAX_SIZE: usize = 63;

    /// The root's label, which is empty.
    pub fn root() -> Label<'a>
        ensures { contents_of result.slice.now ≡ [] }
    {
        Label { slice: &[0] }
    }

    /// The label `*` of wildcards (RFC 4592 section 2.1.1).
    pub fn wildcard() -> Label<'a>
        ensures { contents_of result.slice.now ≡ codes "*" }
    {
        Label { slice: b"\x01*" }
    }

    /// Whether this is the root's label.
    pub fn is_root(&self) -> bool
        ensures { IsTrue result ↔ (contents_of self.now.slice.now ≡ []) }
    {
        self.contents().is_empty()
    }

    /// Whether this is the label `*` of wildcards.
    pub fn is_wildcard(&self) -> bool
        ensures { IsTrue result ↔ (contents_of self.now.slice.now ≡ codes "*") }
    {
        self.contents() == b"*".as_slice()
    }

    /// The length octet and the contents, from 1 to 64 octets.
    pub fn as_wire(&self) -> &'a [u8]
        ensures octets { result.now ≡ self.now.slice.now }
        ensures wire { result.now ≡ label_wire (contents_of self.now.slice.now) }
        ensures short { length result.now ≤ 64 }
    {
        self.slice
    }

    /// The contents, from 0 to 63 octets.
    pub fn contents(&self) -> &'a [u8]
        ensures contents { result.now ≡ contents_of self.now.slice.now }
        ensures short { length result.now ≤ 63 }
    {
        &self.as_wire()[1..]
    }

    /// A copy that owns its octets.
    pub fn to_buf(&self) -> LabelBuf
        ensures { result ≡ contents_of self.now.slice.now }
    {
        LabelBuf::copy_from(*self)
    }
}

/// The length octet and the contents.
impl AsBytes for Label<'_> {
    fn as_bytes(&self) -> &[u8] {
        self.as_wire()
    }
}

impl<'a> ReadPlainValue<'a> for Label<'a> {
    ghost Seen = { List ℕ };

    ghost seen = { λ v. contents_of v.slice.now };

    ghost reads = { plain_label };

    ghost leaves_rest = { label_leaves };

    #[tactic(auto, unfolding(crate::specs::Labels::plain_label))]
    fn read_plain(bytes: &'a [u8]) -> Result<(Label<'a>, &'a [u8]), ParseError> {
        let [size, trailing @ ..] = bytes else {
            return Err(ParseError);
        };
        let size = *size as usize;
        if size > Label::MAX_SIZE || trailing.len() < size {
            return Err(ParseError);
        }
        let (slice, rest) = bytes.split_at(1 + size);
        Ok((Label { slice }, rest))
    }
}

impl<'a> BuildBytes for Label<'a> {
    ghost use Rattle.std.specs.Prelude.{⊤};
    ghost use Rattle.dns_wire.specs.Building.{Builds};

    ghost octets = { λ v. label_wire (contents_of v.slice.now) };

    fn build_at(&self, bytes: &mut [u8], start: usize) -> Result<usize, TruncationError> {
        put(self.as_wire(), bytes, start)
    }

    /// The number of octets, from 1 to 64.
    fn built_bytes_size(&self) -> usize
        ensures size { result ≡ length (label_wire (contents_of self.now.slice.now)) }
        ensures short { result ≤ 64 }
    {
        self.as_wire().len()
    }
}

/// Whole: a label by itself is not shared.
impl<'a> BuildInMessage for Label<'a> {
    ghost use Rattle.std.specs.Prelude.{None, ⊤};
    ghost use Rattle.dns_wire.specs.Layout.{octets_writes};

    ghost writes = { λ v. octets_writes (label_wire (contents_of v.slice.now)) };

    ghost layout_matches = { λ _. tt };

    fn build_in_message(
        &self,
        contents: &mut [u8],
        start: usize,
        compressor: &mut NameCompressor,
    ) -> Result<usize, TruncationError> {
        build_whole(self, contents, start, compressor)
    }
}
