//! A label with its octets.

ghost use Rattle.std.specs.Prelude.{◌≡◌, ◌≤◌, ◌<◌, ◌+◌, ◌↔◌, ℕ, List, [], ◌∷◌, ◌++◌, length, take, slice_index, IsOk, IfOk, OnOk, OnErr, ⊤};
ghost use Rattle.std.specs.Borrow.{sem};
ghost use Rattle.std.specs.Str.{str_to_ascii_lowercase};
ghost use Rattle.dns_label.specs.LabelsLemmas.{label_leaves};
ghost use Rattle.dns_label.specs.Labels.{plain_label, contents_of};

use crate::label::Label;
use dns_wire::{
    BuildBytes, BuildInMessage, NameCompressor, ParseError, ReadPlainValue, SplitBytes, Storage,
    TruncationError, build_whole,
};
use std::alloc::AllocError;
use std::marker::Model;

/// A label that owns its octets, and is seen as its contents. It takes no memory.
///
/// ```
/// println!(rt; "{}", label_of(b"a.b\0")?)?; // a\.b\000
/// ```
#[derive(Debug, Drop)]
pub struct LabelBuf {
    storage: Storage<64>,
}

impl Model for LabelBuf {
    ghost use Rattle.std.specs.Prelude.{◌≡◌, ◌<◌, ℕ, List, length, slice_index};
    ghost use Rattle.dns_wire.specs.Storage.{stored};

    ghost Value = { List ℕ };

    ghost view = { λ b. stored b.storage.octets };

    ghost invariant = { λ b. (slice_index b.storage.octets 0 < 64) × (length b.storage.octets ≡ 64) };
}

impl LabelBuf {
    ghost use Rattle.dns_label.specs.Lends.{LendsContents};

    /// The empty label.
    pub const fn new() -> LabelBuf
        ensures { result ≡ [] }
    {
        LabelBuf {
            storage: Storage { octets: [0; 64] },
        }
    }

    /// A copy of the label.
    pub fn copy_from(label: Label<'_>) -> LabelBuf
        ensures { result ≡ contents_of label.entry.slice.now }
    {
        let wire = label.as_wire();
        let mut octets = [0; 64];
        octets[..wire.len()].copy_from_slice(wire);
        LabelBuf {
            storage: Storage { octets },
        }
    }

    /// Adds the octets at the end. `TruncationError` comes exactly if there would be more than 63, and
    /// then nothing changes.
    pub fn append(&mut self, bytes: &[u8]) -> Result<(), TruncationError>
        ensures fits { IsOk result ↔ (length self.old + length bytes.now ≤ 63) }
        ensures appended { OnOk result (self.new ≡ self.old ++ bytes.now) }
        ensures unchanged { OnErr result (self.new ≡ self.old) }
    {
        let size = self.storage.octets[0] as usize;
        if bytes.len() > Label::MAX_SIZE - size {
            return Err(TruncationError);
        }
        let end = size + bytes.len();
        append_at(&mut self.storage.octets, size, bytes);
        self.storage.octets[0] = end as u8;
        Ok(())
    }

    /// Adds the octet at the end. `TruncationError` comes exactly if there are 63 already, and then
    /// nothing changes.
    pub fn push(&mut self, byte: u8) -> Result<(), TruncationError>
        ensures fits { IsOk result ↔ (length self.old < 63) }
        ensures appended { OnOk result (self.new ≡ self.old ++ byte ∷ []) }
        ensures unchanged { OnErr result (self.new ≡ self.old) }
    {
        self.append(&[byte])
    }

    /// Keeps that many octets from the start.
    pub fn truncate(&mut self, new_len: usize)
        requires { new_len ≤ length self.old }
        ensures { self.new ≡ take new_len self.old }
    {
        let octets = &mut self.storage.octets;
        octets[0] = new_len as u8;
    }

    /// The label as a view.
    pub fn as_label(&self) -> Label<'_>
        ensures contents { contents_of result.slice.now ≡ self.now }
        ensures short { length self.now ≤ 63 }
    {
        let size = self.storage.octets[0] as usize;
        Label {
            slice: &self.storage.octets[..1 + size],
        }
    }

    /// The contents, for writing. Their number stays.
    pub fn contents_mut(&mut self) -> &mut [u8]
        ensures* writes_back { sem 𝓛 (LendsContents self.entry result) }
        ensures value { result.now ≡ self.old }
    {
        let size = self.storage.octets[0] as usize;
        self.storage.part_mut(1, 1 + size)
    }

    /// Makes the ASCII letters small (RFC 4343 section 3).
    pub fn make_lowercase(&mut self)
        ensures { self.new ≡ str_to_ascii_lowercase self.old }
    {
        self.contents_mut().make_ascii_lowercase();
    }
}

/// Copies the octets after the length octet and that many others.
fn append_at(octets: &mut [u8], size: usize, bytes: &[u8])
    requires { 1 + size + length bytes.now ≤ length octets.old }
    ensures { take (1 + size + length bytes.now) octets.new ≡ take (1 + size) octets.old ++ bytes.now }
{
    octets[1 + size..1 + size + bytes.len()].copy_from_slice(bytes);
}

/// The label with these contents. `TruncationError` comes exactly if they are more than 63 octets.
pub fn label_of(bytes: &[u8]) -> Result<LabelBuf, TruncationError>
    ensures fits { IsOk result ↔ (length bytes.now ≤ 63) }
    ensures contents { IfOk result (λ label. label ≡ bytes.now) }
{
    let mut label = LabelBuf::new();
    label.append(bytes)?;
    Ok(label)
}

/// The empty label.
impl Default for LabelBuf {
    ghost is_default = { λ label. label ≡ [] };

    fn default() -> LabelBuf {
        LabelBuf::new()
    }
}

impl Clone for LabelBuf {
    ghost is_clone = { λ a b. b ≡ a };

    ghost is_infallible = { λ _. ⊤ };

    fn clone(&self) -> Result<LabelBuf, AllocError> {
        Ok(LabelBuf {
            storage: self.storage,
        })
    }
}

impl<'a> ReadPlainValue<'a> for LabelBuf {
    ghost Seen = { List ℕ };

    ghost seen = { λ v. v };

    ghost reads = { plain_label };

    ghost leaves_rest = { label_leaves };

    fn read_plain(bytes: &'a [u8]) -> Result<(LabelBuf, &'a [u8]), ParseError> {
        let (label, rest) = Label::split_bytes(bytes)?;
        Ok((LabelBuf::copy_from(label), rest))
    }
}

impl BuildBytes for LabelBuf {
    ghost use Rattle.std.specs.Prelude.{⊤};
    ghost use Rattle.dns_wire.specs.Building.{Builds};
    ghost use Rattle.dns_label.specs.Labels.{label_wire};

    ghost octets = { λ v. label_wire v };

    fn build_at(&self, bytes: &mut [u8], start: usize) -> Result<usize, TruncationError> {
        self.as_label().build_at(bytes, start)
    }

    /// The number of octets, from 1 to 64.
    fn built_bytes_size(&self) -> usize
        ensures size { result ≡ length (label_wire self.now) }
        ensures short { result ≤ 64 }
    {
        self.as_label().built_bytes_size()
    }
}

/// Whole: a label by itself is not shared.
impl BuildInMessage for LabelBuf {
    ghost use Rattle.std.specs.Prelude.{None, ⊤};
    ghost use Rattle.dns_wire.specs.Layout.{octets_writes};
    ghost use Rattle.dns_label.specs.Labels.{label_wire};

    ghost writes = { λ v. octets_writes (label_wire v) };

    ghost layout_matches = { λ _. tt };

    fn build_in_message(
        &self,
        contents: &mut [u8],
        start: usize,
        compressor: &mut NameCompressor,
    ) -> Result<usize, TruncationError> {
        build_whole(self, contents, start, compressor)
    }
}
