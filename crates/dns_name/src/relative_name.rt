//! Labels one after another, as they are in a name of either layout beside its root.

ghost use Rattle.std.specs.Prelude.{◌≡◌, ◌≤◌, ◌-◌, List, [], ◌∷◌, ◌++◌, length, take, drop, reverse, Some, MatchOption};
ghost use Rattle.std.proofs.Props.{props};
ghost use Rattle.dns_wire.specs.Names.{labels_wire};
ghost use Rattle.dns_wire.specs.Reversed.{relative_name, relative_labels};

use dns_wire::copy_at;

/// Labels of 1 to 63 octets, each after its length, with no root after them: at most 254 octets.
#[derive(Clone, Copy)]
pub(crate) struct RelativeName<'a> {
    pub slice: &'a [u8],
    ghost are_labels: { relative_name slice.now ≡ Some (relative_labels slice.now) } by { Prim.hlevel props },
}

impl<'a> RelativeName<'a> {
    /// The first label, and those after it; `None` if there are no labels.
    pub fn split_first(&self) -> Option<(&'a [u8], RelativeName<'a>)>
        ensures { MatchOption result (relative_labels self.now.slice.now ≡ [])
            (λ x. relative_labels self.now.slice.now ≡ x.0.now ∷ relative_labels x.1.slice.now) }
    {
        let Some((size, trailing)) = self.slice.split_first() else {
            return None;
        };
        let (label, rest) = trailing.split_at(*size as usize);
        Some((label, RelativeName { slice: rest }))
    }

    /// How many octets they have, at most 254.
    pub fn len(&self) -> usize
        ensures { result ≡ length self.now.slice.now }
    {
        self.slice.len()
    }

    /// How many labels there are, at most 127.
    pub fn count(&self) -> usize
        ensures count { result ≡ length (relative_labels self.now.slice.now) }
        ensures few { result ≤ 127 }
    {
        let mut rest = *self;
        let mut count = 0;
        while let Some((_label, next)) = rest.split_first() {
            rest = next;
            count += 1;
        }
        count
    }

    /// Copies the labels into the buffer in reverse order, so that the first of them ends at `end`.
    pub fn put_reversed(&self, bytes: &mut [u8], end: usize)
        requires room { length self.now.slice.now ≤ end }
        requires within { end ≤ length bytes.old }
        ensures { bytes.new ≡ take (end - length self.now.slice.now) bytes.old ++ (labels_wire (reverse (relative_labels self.now.slice.now)) ++ drop end bytes.old) }
    {
        let mut at = 0;
        while at < self.slice.len() {
            let next = at + 1 + self.slice[at] as usize;
            copy_before(&self.slice[at..next], bytes, end - at);
            at = next;
        }
    }
}

/// Copies the octets to the place of the buffer that ends at `end`.
pub(crate) fn copy_before(octets: &[u8], buffer: &mut [u8], end: usize)
    requires room { length octets.now ≤ end }
    requires within { end ≤ length buffer.old }
    ensures { buffer.new ≡ take (end - length octets.now) buffer.old ++ (octets.now ++ drop end buffer.old) }
{
    copy_at(octets, buffer, end - octets.len());
}
