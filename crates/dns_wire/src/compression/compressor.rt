//! The places of a message to which its later names may point.

ghost use Rattle.std.specs.Prelude.{◌≡◌, ◌≤◌, ◌<◌, ℕ, List, Some, [], ◌∷◌, length, take, IfSome, IfNone};
ghost use Rattle.std.specs.List.{AllByRecursion};
ghost use Rattle.dns_wire.specs.Octets.{Octets};
ghost use Rattle.dns_wire.specs.Reading.{all_of};
ghost use Rattle.dns_wire.specs.Names.{plain_name, name_labels};
ghost use Rattle.dns_wire.specs.Reversed.{reversed_name, reversed_name_labels};
ghost use Rattle.dns_wire.specs.Compression.{longest_recorded, RecordedSuffix, LongestRecorded, with_more, recorded, Run, ArePlaces, FitsIn, Grows};

use crate::compression::label_ends::mark_labels;
use crate::compression::reverse::reverse_name;
use crate::compression::suffix::{count_labels, marked_suffix};
use crate::sizes::{LAST_PLACE, MAX_LABEL_SIZE, MAX_PLACES};
use arrayvec::ArrayVec;
use std::marker::Model;

/// Where labels of names begin in a message, so that names written later can end in a pointer to one of
/// them (RFC 1035 section 4.1.4). It is seen as the list of these places, which are counted from the end
/// of the header: at most 128, rising, and each at most 16,371, as far as a pointer reaches.
#[derive(Drop)]
pub struct NameCompressor {
    recorded: ArrayVec<u16, MAX_PLACES>,
}

impl Model for NameCompressor {
    ghost use Rattle.std.specs.Prelude.{ℕ, List};
    ghost use Rattle.dns_wire.specs.Compression.{ArePlaces};

    ghost Value = { List ℕ };

    ghost view = { λ c. c.recorded.items };

    ghost invariant = { λ c. ArePlaces c.recorded.items };
}

impl NameCompressor {
    /// No places.
    pub fn new() -> Self
        ensures { result ≡ [] }
    {
        NameCompressor {
            recorded: ArrayVec::new(),
        }
    }

    /// The places, in order.
    pub fn places(&self) -> &[u16]
        ensures exact { result.now ≡ self.now }
        ensures recorded { ArePlaces self.now }
    {
        self.recorded.as_slice()
    }

    /// Keeps the first `len` places alone, of which there are that many.
    pub fn truncate(&mut self, len: usize)
        requires { len ≤ length self.old }
        ensures exact { self.new ≡ take len self.old }
        ensures fits { (contents : Octets) → FitsIn self.old contents → FitsIn self.new contents }
    {
        self.recorded.truncate(len);
    }

    /// The longest suffix of the name that is the name at a recorded place, ignoring ASCII case: how many octets
    /// of the name are before it, and the smallest such place. It is `None` exactly if no suffix of at
    /// least one label is at a recorded place.
    pub fn compress_name(&self, contents: &[u8], name: &[u8]) -> Option<(usize, u16)>
        requires { all_of (plain_name name.now) ≡ Some (name_labels name.now) }
        ensures exact { result ≡ longest_recorded contents.now self.now 0 (name_labels name.now) }
        ensures longest { IfSome result (λ k. LongestRecorded contents.now self.now (name_labels name.now) k.0 k.1) }
        ensures none { IfNone result ((prefix place : ℕ) → ¬ RecordedSuffix contents.now self.now (name_labels name.now) prefix place) }
    {
        let count = count_labels(name);
        let (last, other) = (mark_labels(name, 0), mark_labels(name, 1));
        let mut best = None;
        let mut prefix = name.len();
        for place in self.recorded.as_slice() {
            if let Some(found) = marked_suffix(
                contents, *place, name, count, prefix, &last, &other,
            ) {
                if found == 0 {
                    return Some((0, *place));
                }
                best = Some((found, *place));
                prefix = found;
            }
        }
        best
    }

    /// As `compress_name` of the name whose octets from the root on these are: the octets before the suffix
    /// are counted from the start of the name.
    pub fn compress_revname(&self, contents: &[u8], name: &[u8]) -> Option<(usize, u16)>
        requires { reversed_name name.now ≡ Some (reversed_name_labels name.now) }
        ensures exact { result ≡ longest_recorded contents.now self.now 0 (reversed_name_labels name.now) }
        ensures longest { IfSome result (λ k. LongestRecorded contents.now self.now (reversed_name_labels name.now) k.0 k.1) }
        ensures none { IfNone result ((prefix place : ℕ) → ¬ RecordedSuffix contents.now self.now (reversed_name_labels name.now) prefix place) }
    {
        let mut buffer = [0; 255];
        let forward = &mut buffer[..name.len()];
        reverse_name(name, forward);
        self.compress_name(contents, forward)
    }

    /// Keeps the places of the labels that were written from `start` to `end`, as far as a pointer reaches
    /// them and while there are fewer than 128. The labels end in the root, or in a pointer that leads to a
    /// recorded place.
    pub fn note(&mut self, contents: &[u8], start: usize, end: usize)
        requires within { end ≤ length contents.now }
        requires fits { FitsIn self.old (take start contents.now) }
        requires run { Run (take end contents.now) self.old start start }
        ensures exact { self.new ≡ recorded self.old (take end contents.now) start }
        ensures grows { Grows self.old self.new start }
        ensures fits { FitsIn self.new (take end contents.now) }
    {
        let mut at = start;
        while at < end {
            let size = contents[at] as usize;
            if size == 0 || size > MAX_LABEL_SIZE {
                break;
            }
            self.keep(at);
            at += 1 + size;
        }
    }

    /// Keeps a place after the others, if a pointer reaches it and there is room.
    fn keep(&mut self, place: usize)
        requires { AllByRecursion (λ recorded. recorded < place) self.old }
        ensures { self.new ≡ with_more self.old (place ∷ []) }
    {
        if !self.recorded.is_full() && place <= LAST_PLACE {
            self.recorded.push(place as u16);
        }
    }
}

/// No places.
impl Default for NameCompressor {
    ghost is_default = { λ c. c ≡ [] };

    fn default() -> Self {
        NameCompressor::new()
    }
}
