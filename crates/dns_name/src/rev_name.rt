//! A name from the root on, as a view over its octets.

ghost use Rattle.std.specs.Prelude.{◌≡◌, ◌+◌, ◌≤◌, ◌<◌, ◌^◌, ◌↔◌, [], ◌∷◌, length, reverse, Some, IsTrue, ⊤};
ghost use Rattle.std.proofs.Props.{props};
ghost use Rattle.dns_wire.specs.Building.{Builds, Occurs};
ghost use Rattle.dns_wire.specs.Names.{wire};
ghost use Rattle.dns_wire.specs.Reversed.{relative_labels, reversed_wire, reversed_name, reversed_name_labels};

use crate::relative_name::{RelativeName, copy_before};
use dns_label::LabelIter;
use dns_wire::{BuildBytes, TruncationError};

/// A name without pointers in reverse: the root's length 0, and then labels of 1 to 63 octets from the last
/// to the first, each after its length, at most 255 octets in all. Names that end in the same labels begin
/// with the same octets so. It is written as other names are, the root last.
#[derive(Clone, Copy, Debug)]
pub struct RevName<'a> {
    /// All the octets, the first of them the root's 0.
    pub slice: &'a [u8],
    ghost is_name: { reversed_name slice.now ≡ Some (reversed_name_labels slice.now) } by { Prim.hlevel props },
}

impl<'a> RevName<'a> {
    /// The most octets of a name, the root's 0 included (RFC 1035 section 2.3.4).
    pub const MAX_SIZE: usize = 255;

    /// The root: a name without labels.
    pub fn root() -> RevName<'a>
        ensures { reversed_name_labels result.slice.now ≡ [] }
    {
        RevName { slice: &[0] }
    }

    /// The number of octets, from 1 to 255, which is the same in both layouts.
    pub fn len(&self) -> usize
        ensures octets { result ≡ length self.now.slice.now }
        ensures wire { result ≡ length (wire (reversed_name_labels self.now.slice.now)) }
        ensures short { result ≤ 255 }
    {
        self.as_bytes().len()
    }

    /// Whether there are no labels but the root.
    pub fn is_root(&self) -> bool
        ensures { IsTrue result ↔ (reversed_name_labels self.now.slice.now ≡ []) }
    {
        self.len() == 1
    }

    /// The octets: the root's 0, and the labels from the last to the first, each after its length.
    pub fn as_bytes(&self) -> &'a [u8]
        ensures octets { result.now ≡ self.now.slice.now }
        ensures name { reversed_name result.now ≡ Some (reversed_name_labels self.now.slice.now) }
        ensures reversed { result.now ≡ reversed_wire (reversed_name_labels self.now.slice.now) }
        ensures short { length result.now ≤ 255 }
    {
        self.slice
    }

    /// The labels, the root's first, and then from the last to the first.
    pub fn labels(&self) -> LabelIter<'a>
        ensures labels { result ≡ [] ∷ reverse (reversed_name_labels self.now.slice.now) }
        ensures few { length result ≤ 128 }
    {
        LabelIter::new(self.as_bytes())
    }

    /// The labels, from the last to the first.
    pub(crate) fn relative(&self) -> RelativeName<'a>
        ensures labels { relative_labels result.slice.now ≡ reverse (reversed_name_labels self.now.slice.now) }
        ensures octets { length self.now.slice.now ≡ length result.slice.now + 1 }
    {
        let (_root, labels) = self.slice.split_at(1);
        RelativeName { slice: labels }
    }

    /// Copies the labels to a place of the buffer, the first label first, and gives the place where they end.
    pub(crate) fn put_forward(&self, bytes: &mut [u8], start: usize) -> usize
        requires { start + length self.now.slice.now ≤ length bytes.old }
        ensures { Occurs (wire (reversed_name_labels self.now.slice.now)) bytes.old start bytes.new result }
    {
        let end = start + self.slice.len();
        copy_before(&[0], bytes, end);
        self.relative().put_reversed(bytes, end - 1);
        end
    }
}

/// The octets with the first label first and the root last.
impl BuildBytes for RevName<'_> {
    ghost octets = { λ v. wire (reversed_name_labels v.slice.now) };

    fn build_at(&self, bytes: &mut [u8], start: usize) -> Result<usize, TruncationError> {
        if bytes.len() - start < self.len() {
            return Err(TruncationError);
        }
        Ok(self.put_forward(bytes, start))
    }

    /// The number of octets, from 1 to 255.
    fn built_bytes_size(&self) -> usize
        ensures size { result ≡ length (wire (reversed_name_labels self.now.slice.now)) }
        ensures short { result ≤ 255 }
    {
        self.len()
    }
}
