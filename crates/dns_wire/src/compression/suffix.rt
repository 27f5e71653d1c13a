//! Suffixes of a name that are in a message already.

ghost use Rattle.std.specs.Prelude.{◌≡◌, ◌<◌, ◌≤◌, length, Some, [], MatchOption, IfSome, IsTrue, ◌↔◌};
ghost use Rattle.std.specs.Char.{to_ascii_lowercase};
ghost use Rattle.std.specs.Str.{str_eq_ignore_ascii_case};
ghost use Rattle.dns_wire.specs.Reading.{all_of};
ghost use Rattle.dns_wire.specs.Names.{plain_name, name_labels};
ghost use Rattle.dns_wire.specs.Compression.{occurs_at};
ghost use Rattle.dns_wire.specs.Searching.{FirstOf, count_at, suffix_at, before_limit, AllMarked};

use crate::compression::label_ends::{CLASSES, may_be_marked};
use crate::name_cursor::{LabelType, NameCursor};

/// The first label of a name's octets, and the octets of the name after it; `None` if the name is the
/// root.
pub(crate) fn first_label(name: &[u8]) -> Option<(&[u8], &[u8])>
    requires { all_of (plain_name name.now) ≡ Some (name_labels name.now) }
    ensures { MatchOption result (name_labels name.now ≡ []) (λ x. FirstOf name.now x.0.now x.1.now) }
{
    let size = name[0] as usize;
    if size == 0 {
        return None;
    }
    let (_head, trailing) = name.split_at(1);
    let (label, rest) = trailing.split_at(size);
    Some((label, rest))
}

/// How many labels a name has, without the root's.
pub(crate) fn count_labels(name: &[u8]) -> usize
    requires { all_of (plain_name name.now) ≡ Some (name_labels name.now) }
    ensures exact { result ≡ length (name_labels name.now) }
    ensures few { result < 128 }
{
    let mut count = 0;
    let mut rest = name;
    while let Some((_label, next)) = first_label(rest) {
        count += 1;
        rest = next;
    }
    count
}

/// How many labels are read at the place, if they are at most that many.
fn count_labels_at(contents: &[u8], place: usize, most: usize) -> Option<usize>
    requires { most < 128 }
    ensures exact { result ≡ count_at contents.now place most }
    ensures within { IfSome result (λ count. count ≤ most) }
{
    let mut seen = 0;
    let mut cursor = NameCursor::new(place);
    loop {
        match cursor.next_label_type(contents) {
            Err(_) => return None,
            Ok(LabelType::Root) => return Some(seen),
            Ok(LabelType::Label(_)) => {
                if seen == most {
                    return None;
                }
                seen += 1;
            }
            Ok(LabelType::Pointer(_)) => {}
        }
    }
}

/// Whether two octets are the same, ignoring ASCII case.
#[inline(always)]
fn is_same_octet(octet: u8, other: u8) -> bool
    ensures { IsTrue result ↔ (to_ascii_lowercase octet ≡ to_ascii_lowercase other) }
{
    octet == other || octet.to_ascii_lowercase() == other.to_ascii_lowercase()
}

/// Whether two labels are the same, ignoring ASCII case.
fn is_same_label(label: &[u8], other: &[u8]) -> bool
    ensures { result ≡ str_eq_ignore_ascii_case label.now other.now }
{
    if label.len() != other.len() {
        return false;
    }
    let mut at = 0;
    while at < label.len() {
        if !is_same_octet(label[at], other[at]) {
            return false;
        }
        at += 1;
    }
    true
}

/// Whether the name at the place is this one, ignoring ASCII case.
fn is_name_at(contents: &[u8], place: usize, name: &[u8]) -> bool
    requires { all_of (plain_name name.now) ≡ Some (name_labels name.now) }
    ensures { result ≡ occurs_at contents.now (name_labels name.now) place }
{
    let mut rest = name;
    let mut cursor = NameCursor::new(place);
    loop {
        match cursor.next_label_type(contents) {
            Err(_) => return false,
            Ok(LabelType::Root) => return first_label(rest).is_none(),
            Ok(LabelType::Label(size)) => {
                let Some((label, next)) = first_label(rest) else {
                    return false;
                };
                let other = &contents[cursor.at - size..cursor.at];
                if !is_same_label(label, other) {
                    return false;
                }
                rest = next;
            }
            Ok(LabelType::Pointer(_)) => {}
        }
    }
}

/// After how many of its octets the name, which has `count` labels, has a suffix that is the name at the
/// place; `None` if that is none before `limit` octets. The suffix has as many labels as the name at the
/// place, so that one comparison is enough.
#[inline(never)]
fn suffix_before(
    contents: &[u8],
    place: usize,
    name: &[u8],
    count: usize,
    limit: usize,
) -> Option<usize>
    requires name { all_of (plain_name name.now) ≡ Some (name_labels name.now) }
    requires count { count ≡ length (name_labels name.now) }
    requires few { count < 128 }
    ensures { result ≡ before_limit limit (suffix_at contents.now place 0 (name_labels name.now)) }
{
    let size = count_labels_at(contents, place, count)?;
    let mut prefix = 0;
    let mut rest = name;
    let mut left = count;
    while left > size {
        let Some((label, next)) = first_label(rest) else {
            break;
        };
        prefix += 1 + label.len();
        rest = next;
        left -= 1;
    }
    if size > 0 && prefix < limit && is_name_at(contents, place, rest) {
        Some(prefix)
    } else {
        None
    }
}

/// As `suffix_before`, if the classes of the name's labels are marked by their last octets, and by those before
/// the last. Most places are passed over by the marks alone.
#[inline(always)]
pub(crate) fn marked_suffix(
    contents: &[u8],
    place: u16,
    name: &[u8],
    count: usize,
    limit: usize,
    last: &[bool; CLASSES],
    other: &[bool; CLASSES],
) -> Option<usize>
    requires name { all_of (plain_name name.now) ≡ Some (name_labels name.now) }
    requires count { count ≡ length (name_labels name.now) }
    requires few { count < 128 }
    requires last { AllMarked 0 last.now (name_labels name.now) }
    requires other { AllMarked 1 other.now (name_labels name.now) }
    ensures { result ≡ before_limit limit (suffix_at contents.now place 0 (name_labels name.now)) }
{
    if !may_be_marked(contents, place, last, 0) || !may_be_marked(contents, place, other, 1) {
        return None;
    }
    suffix_before(contents, place as usize, name, count, limit)
}
