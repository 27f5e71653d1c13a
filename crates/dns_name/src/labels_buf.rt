//! Labels before a root that is not read yet, with their octets.

ghost use Rattle.std.specs.Prelude.{◌≡◌, ◌+◌, ◌<◌, [], ◌∷◌, ◌++◌, length, IsTrue};
ghost use Rattle.dns_wire.specs.Names.{labels_wire};
ghost use Rattle.dns_name.specs.Text.{fits};

use crate::name::Name;
use crate::name_buf::NameBuf;
use dns_label::LabelBuf;
use dns_wire::copy_at;
use std::marker::Model;

/// Labels of 1 to 63 octets, each after its length, at most 255 octets in all. It is seen as these labels,
/// and takes no memory.
#[derive(Drop)]
pub(crate) struct LabelsBuf {
    size: usize,
    buffer: [u8; Name::MAX_SIZE],
}

impl Model for LabelsBuf {
    ghost use Rattle.std.specs.List.{AllByRecursion};
    ghost use Rattle.std.specs.Prelude.{◌≡◌, ◌≤◌, length, take};
    ghost use Rattle.dns_label.specs.Labels.{sequence_labels};
    ghost use Rattle.dns_wire.specs.Names.{IsLabel, labels_wire};
    ghost use Rattle.dns_wire.specs.Octets.{Labels};

    ghost Value = { Labels };

    ghost view = { λ b. sequence_labels (take b.size b.buffer) };

    ghost invariant = { λ b. (b.size ≤ 255) × (length b.buffer ≡ 255) × AllByRecursion IsLabel (sequence_labels (take b.size b.buffer)) × (take b.size b.buffer ≡ labels_wire (sequence_labels (take b.size b.buffer))) };
}

impl LabelsBuf {
    /// No labels.
    pub fn new() -> LabelsBuf
        ensures { result ≡ [] }
    {
        LabelsBuf {
            size: 0,
            buffer: [0; Name::MAX_SIZE],
        }
    }

    /// Whether these and the label have at most 255 octets. The empty label is the root.
    pub fn fit(&self, label: &LabelBuf) -> bool
        ensures { result ≡ fits self.now label.now }
    {
        self.size + label.as_label().as_wire().len() <= Name::MAX_SIZE
    }

    /// Puts the label after these.
    pub fn push(&mut self, label: &LabelBuf)
        requires fits { IsTrue (fits self.old label.now) }
        requires some { 0 < length label.now }
        ensures { self.new ≡ self.old ++ label.now ∷ [] }
    {
        let wire = label.as_label().as_wire();
        copy_at(wire, &mut self.buffer, self.size);
        self.size += wire.len();
    }

    /// The name of these labels.
    pub fn into_name(self) -> NameBuf
        requires { IsTrue (fits self []) }
        ensures { result ≡ self }
    {
        let mut buffer = self.buffer;
        copy_at(&[0], &mut buffer, self.size);
        NameBuf::from_buffer(buffer, self.size + 1)
    }
}
