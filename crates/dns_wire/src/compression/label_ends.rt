//! The ends of labels: by them most places of a message are passed over before a name is read there.

ghost use Rattle.std.specs.Prelude.{◌≡◌, ◌<◌, ◌≤◌, Some, None, IsFalse};
ghost use Rattle.dns_wire.specs.Octets.{Labels};
ghost use Rattle.dns_wire.specs.Reading.{all_of};
ghost use Rattle.dns_wire.specs.Names.{plain_name, name_labels};
ghost use Rattle.dns_wire.specs.Searching.{class_by, AllMarked, UnmarkedAt, suffix_at};

use crate::compression::suffix::first_label;
use crate::sizes::MAX_LABEL_SIZE;

/// How many classes of labels there are.
pub(crate) const CLASSES: usize = 32;

/// The class of a label of that size by an octet near its end. Labels that are equal, ignoring ASCII case, are of
/// one class.
#[inline(always)]
fn class_of(octet: u8, size: usize) -> usize
    requires { size < 256 }
    ensures { result ≡ class_by octet size }
{
    (octet as usize + 8 * size) % CLASSES
}

/// Marks the class of each label of the name, by the octet that is `back` octets before the label's last.
pub(crate) fn mark_labels(name: &[u8], back: usize) -> [bool; CLASSES]
    requires name { all_of (plain_name name.now) ≡ Some (name_labels name.now) }
    requires back { back ≤ 1 }
    ensures { AllMarked back result (name_labels name.now) }
{
    let mut marks = [false; CLASSES];
    let mut rest = name;
    while let Some((label, next)) = first_label(rest) {
        let size = label.len();
        marks[class_of(rest[size - back], size)] = true;
        rest = next;
    }
    marks
}

/// As `may_be_marked`, where the octets may end before the label does.
#[inline(always)]
fn may_be_marked_near_end(
    contents: &[u8],
    place: usize,
    marks: &[bool; CLASSES],
    back: usize,
) -> bool
    requires { back ≤ 1 }
    ensures unmarked { UnmarkedAt back marks.now contents.now place → IsFalse result }
    ensures passed { IsFalse result → (labels : Labels) → AllMarked back marks.now labels → suffix_at contents.now place 0 labels ≡ None }
{
    if place >= contents.len() {
        return true;
    }
    let size = contents[place] as usize;
    let last = place + size;
    if size < back || size > MAX_LABEL_SIZE || last >= contents.len() {
        return true;
    }
    marks[class_of(contents[last - back], size)]
}

/// Whether the class of the label at the place is marked, or what is there is no label. Where it is false, no
/// suffix of labels that are all marked is at the place.
#[inline(always)]
pub(crate) fn may_be_marked(
    contents: &[u8],
    place: u16,
    marks: &[bool; CLASSES],
    back: usize,
) -> bool
    requires { back ≤ 1 }
    ensures unmarked { UnmarkedAt back marks.now contents.now place → IsFalse result }
    ensures passed { IsFalse result → (labels : Labels) → AllMarked back marks.now labels → suffix_at contents.now place 0 labels ≡ None }
{
    let at = place as usize;
    if at + MAX_LABEL_SIZE >= contents.len() {
        return may_be_marked_near_end(contents, at, marks, back);
    }
    let size = contents[at] as usize;
    if size < back || size > MAX_LABEL_SIZE {
        return true;
    }
    marks[class_of(contents[at + size - back], size)]
}
