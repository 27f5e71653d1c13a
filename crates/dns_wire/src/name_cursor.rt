//! What is at a place of a name in a message.

ghost use Rattle.std.specs.Prelude.{◌≡◌, ◌≤◌, None, IfOk, OnErr};
ghost use Rattle.dns_wire.specs.Reading.{Gives};
ghost use Rattle.dns_wire.specs.Pointers.{offset_of, label_type_at, LabelTypeFits, after};

use crate::error::ParseError;
use crate::sizes::{HEADER_SIZE, MAX_LABEL_SIZE, POINTER_TAG};

/// What is at a place of a name.
#[derive(Clone, Copy, Debug)]
pub enum LabelType {
    /// The root's length, which ends the name.
    Root,
    /// The length of a label, whose octets follow.
    Label(usize),
    /// A pointer to this place of the contents.
    Pointer(usize),
}

/// Where a pointer of these two octets leads, counted from the start of the header: its low 14 bits
/// (RFC 1035 section 4.1.4).
pub fn pointer_offset(first: u8, second: u8) -> usize
    requires { POINTER_TAG ≤ first }
    ensures { result ≡ offset_of first second }
{
    (first - POINTER_TAG) as usize * 256 + second as usize
}

/// Reads what is at a place of the segment that begins at `start` (RFC 1035 section 4.1.4).
/// `ParseError` comes exactly if it is no label type: after the end, of an octet from 64 to 191, if
/// too few octets follow, and of a pointer that leads into the header or not before `start`.
#[tactic(auto, unfolding(crate::specs::Pointers::label_type_at))]
pub fn read_label_type(contents: &[u8], start: usize, at: usize) -> Result<LabelType, ParseError>
    ensures exact { Gives (λ label_type. label_type) result (label_type_at contents.now start at) }
    ensures fits { IfOk result (LabelTypeFits contents.now start at) }
{
    if contents.len() <= at {
        return Err(ParseError);
    }
    let first = contents[at];
    let size = first as usize;
    if size == 0 {
        return Ok(LabelType::Root);
    }
    let left = contents.len() - at;
    if size <= MAX_LABEL_SIZE {
        return if left <= size {
            Err(ParseError)
        } else {
            Ok(LabelType::Label(size))
        };
    }
    if first < POINTER_TAG || left < 2 {
        return Err(ParseError);
    }
    let offset = pointer_offset(first, contents[at + 1]);
    if offset < HEADER_SIZE || start <= offset - HEADER_SIZE {
        return Err(ParseError);
    }
    Ok(LabelType::Pointer(offset - HEADER_SIZE))
}

/// Where a reading of a name is: from label to label, and through pointers.
#[derive(Clone, Copy, Debug)]
pub struct NameCursor {
    /// Where the segment of labels begins: the name's own, or the one that the last pointer led to.
    pub start: usize,
    /// The place of the next label type.
    pub at: usize,
    /// Where what is at the name's own place ends, once that is known: after the first pointer, or
    /// after the root.
    pub end: Option<usize>,
}

impl NameCursor {
    /// At the first label type of the name at this place.
    pub fn new(place: usize) -> Self
        ensures { result ≡ record { start = place; at = place; end = None } }
    {
        NameCursor {
            start: place,
            at: place,
            end: None,
        }
    }

    /// Reads the label type, and goes on after its label, or to where its pointer leads. `ParseError` comes as
    /// from `read_label_type`, and then the cursor stays.
    pub fn next_label_type(&mut self, contents: &[u8]) -> Result<LabelType, ParseError>
        ensures exact { Gives (λ label_type. label_type) result (label_type_at contents.now self.old.start self.old.at) }
        ensures fits { IfOk result (LabelTypeFits contents.now self.old.start self.old.at) }
        ensures moves { IfOk result (λ label_type. self.new ≡ after self.old label_type) }
        ensures stays { OnErr result (self.new ≡ self.old) }
    {
        let label_type = read_label_type(contents, self.start, self.at)?;
        match label_type {
            LabelType::Root => self.end = Some(self.end.unwrap_or(self.at + 1)),
            LabelType::Label(size) => self.at += 1 + size,
            LabelType::Pointer(target) => {
                self.end = Some(self.end.unwrap_or(self.at + 2));
                self.start = target;
                self.at = target;
            }
        }
        Ok(label_type)
    }
}
