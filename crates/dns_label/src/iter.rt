//! Going over labels that come one after another.

ghost use Rattle.std.specs.Prelude.{◌≡◌, ◌↔◌, [], IsTrue, ⊤};
ghost use Rattle.std.specs.Iterator.{YieldsFirstBy, item_count};
ghost use Rattle.dns_wire.specs.Names.{labels_wire};
ghost use Rattle.dns_label.specs.Labels.{AreLabels, contents_of, sequence_labels};

use crate::label::Label;
use dns_wire::SplitBytes;
use std::alloc::AllocError;
use std::marker::Model;

/// The labels that come one after another, in order. It is seen as the labels that are still to come.
#[derive(Debug, Drop)]
pub struct LabelIter<'a> {
    octets: &'a [u8],
}

impl<'a> Model for LabelIter<'a> {
    ghost use Rattle.dns_label.specs.Labels.{AreLabels, sequence_labels};
    ghost use Rattle.dns_wire.specs.Octets.{Labels};

    ghost Value = { Labels };

    ghost view = { λ i. sequence_labels i.octets.now };

    ghost invariant = { λ i. AreLabels i.octets.now };
}

impl<'a> LabelIter<'a> {
    /// Goes over the labels that fill the octets.
    pub fn new(octets: &'a [u8]) -> LabelIter<'a>
        requires { AreLabels octets.now }
        ensures { result ≡ sequence_labels octets.entry.now }
    {
        LabelIter { octets }
    }

    /// Whether the octets are labels one after another, which is what `new` asks of them.
    pub fn are_labels(octets: &[u8]) -> bool
        ensures { IsTrue result ↔ AreLabels octets.now }
    {
        let mut rest = octets;
        while let Ok((_label, trailing)) = Label::split_bytes(rest) {
            rest = trailing;
        }
        rest.is_empty()
    }

    /// The octets of the labels that are still to come.
    pub fn remaining(&self) -> &'a [u8]
        ensures octets { result.now ≡ labels_wire self.now }
        ensures labels { sequence_labels result.now ≡ self.now }
    {
        self.octets
    }

    /// Whether no label is still to come.
    pub fn is_empty(&self) -> bool
        ensures { IsTrue result ↔ (self.now ≡ []) }
    {
        self.octets.is_empty()
    }
}

impl<'a> Iterator for LabelIter<'a> {
    type Item = Label<'a>;

    ghost next_gives = { YieldsFirstBy (λ label. contents_of label.slice.now) (λ labels. labels) };

    ghost remaining = { item_count (λ labels. labels) };

    /// The next label. It is `None` if none is left, and then always.
    fn next(&mut self) -> Option<Label<'a>> {
        match Label::split_bytes(self.octets) {
            Ok((label, rest)) => {
                self.octets = rest;
                Some(label)
            }
            Err(_) => None,
        }
    }
}

impl<'a> Clone for LabelIter<'a> {
    ghost is_clone = { λ a b. b ≡ a };

    ghost is_infallible = { λ _. ⊤ };

    fn clone(&self) -> Result<LabelIter<'a>, AllocError> {
        Ok(LabelIter {
            octets: self.octets,
        })
    }
}
