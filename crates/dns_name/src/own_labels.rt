//! A name's own labels: those before its root or its first pointer.

ghost use Rattle.std.specs.Prelude.{◌≡◌, ◌≤◌, ◌<◌, ◌+◌, ◌++◌, drop, length, take, IfOk, IfErr, OnErr};
ghost use Rattle.dns_wire.specs.Octets.{Labels};
ghost use Rattle.dns_name.specs.OwnLabels.{AreCopied, AreCutShort};

use crate::name::Name;
use crate::steps::Steps;
use dns_wire::{LabelType, ParseError, copy_at, read_label_type};
use std::marker::Brand;
use std::sync::ledger::{Blank, Ledger};

/// A name's own labels, whose octets are in a buffer, and where the name goes on.
#[derive(Clone, Copy, Debug)]
pub struct OwnLabels {
    /// The number of octets of the buffer up to the end of the labels, from 0 to 254.
    pub size: usize,
    /// The place after the name: after its root, or after its first pointer.
    pub end: usize,
    /// Where the pointer after the labels leads; `None` if the root is after them.
    pub target: Option<usize>,
}

/// Copies a label after its length octet, which is at a place of the contents, to a place of the buffer. Short labels are copied by sixteen
/// octets, which is one step, so octets of the buffer after them are unspecified.
fn copy_label(contents: &[u8], at: usize, label: usize, buffer: &mut [u8], size: usize)
    requires within { at + 1 + label ≤ length contents.now }
    requires room { size + 1 + label ≤ length buffer.old }
    ensures prefix { take (size + (1 + label)) buffer.new ≡ take size buffer.old ++ take (1 + label) (drop at contents.now) }
    ensures long { length buffer.new ≡ length buffer.old }
{
    if label < 16 && 16 <= contents.len() - at && 16 <= buffer.len() - size {
        copy_at(&contents[at..at + 16], buffer, size);
    } else {
        copy_at(&contents[at..at + 1 + label], buffer, size);
    }
}

/// Copies the own labels of the name at a place to a buffer of 255 octets, after those that are there before, and counts: each length octet
/// and each pointer is a step. `ParseError` comes exactly if no label type follows, or a label that leaves no room for the root.
pub(crate) fn copy_counted<L: Ledger>(
    contents: &[u8],
    start: usize,
    buffer: &mut [u8],
    before: usize,
    steps: &mut Steps<L>,
) -> Result<OwnLabels, ParseError>
    requires room { (length buffer.old ≡ Name.MAX_SIZE) × (before < Name.MAX_SIZE) }
    ensures copied { IfOk result (λ own. (labels : Labels) × (steps.new ≡ steps.old + (length labels + 1)) × AreCopied contents.now start before buffer.old buffer.new own labels) }
    ensures refused { IfErr result (λ _. (labels : Labels) × (steps.new ≡ steps.old + (length labels + 1)) × AreCutShort contents.now start before labels) }
    ensures first { take before buffer.new ≡ take before buffer.old }
    ensures room { length buffer.new ≡ length buffer.old }
{
    let mut at = start;
    let mut size = before;
    loop {
        steps.add(1);
        match read_label_type(contents, start, at)? {
            LabelType::Root => {
                return Ok(OwnLabels {
                    size,
                    end: at + 1,
                    target: None,
                });
            }
            LabelType::Pointer(target) => {
                return Ok(OwnLabels {
                    size,
                    end: at + 2,
                    target: Some(target),
                });
            }
            LabelType::Label(label) => {
                if size + 1 + label >= Name::MAX_SIZE {
                    return Err(ParseError);
                }
                copy_label(contents, at, label, buffer, size);
                at += 1 + label;
                size += 1 + label;
            }
        }
    }
}

/// Copies the own labels of a name as `copy_own_labels` does.
fn copy_uncounted<L: Ledger>(
    contents: &[u8],
    start: usize,
    buffer: &mut [u8],
    before: usize,
    blank: Blank,
) -> Result<OwnLabels, ParseError>
    requires name { blank.name ≡ L.name }
    requires parts { blank.parts ≡ L.parts }
    requires some { 0 < blank.parts }
    requires room { (length buffer.old ≡ Name.MAX_SIZE) × (before < Name.MAX_SIZE) }
    ensures copied { IfOk result (λ own. (labels : Labels) × AreCopied contents.now start before buffer.old buffer.new own labels) }
    ensures refused { OnErr result ((labels : Labels) × AreCutShort contents.now start before labels) }
    ensures first { take before buffer.new ≡ take before buffer.old }
    ensures room { length buffer.new ≡ length buffer.old }
{
    let mut steps: Steps<L> = Steps::new(blank);
    copy_counted(contents, start, buffer, before, &mut steps)
}

/// Copies the own labels of the name at a place of the octets after a message's header (RFC 1035 section 4.1.4) to a buffer of 255 octets,
/// each label after its length, after as many octets as are there before. `ParseError` comes exactly if no label type
/// follows, or a label that leaves no room for the root. Octets of the buffer after the labels are unspecified.
pub fn copy_own_labels(
    contents: &[u8],
    start: usize,
    buffer: &mut [u8],
    before: usize,
) -> Result<OwnLabels, ParseError>
    requires room { (length buffer.old ≡ Name.MAX_SIZE) × (before < Name.MAX_SIZE) }
    ensures copied { IfOk result (λ own. (labels : Labels) × AreCopied contents.now start before buffer.old buffer.new own labels) }
    ensures refused { OnErr result ((labels : Labels) × AreCutShort contents.now start before labels) }
    ensures first { take before buffer.new ≡ take before buffer.old }
    ensures room { length buffer.new ≡ length buffer.old }
{
    copy_uncounted::<Brand>(contents, start, buffer, before, Blank::new(1))
}
