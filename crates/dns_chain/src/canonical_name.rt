//! Names of a message in canonical form, read into a buffer.

ghost use Rattle.std.specs.Prelude.{◌≡◌, ◌≤◌, ◌<◌, ◌+◌, ◌++◌, ◌∷◌, [], None, length, take, IfNone, IfOk, IfSome};
ghost use Rattle.std.specs.Str.{str_to_ascii_lowercase};
ghost use Rattle.dns_wire.specs.Pointers.{name_at};
ghost use Rattle.dns_chain.specs.CanonicalNames.{HasOwnLabels, IsReadOrNone};

use crate::final_targets::FinalTargets;
use dns_name::{OwnLabels, copy_own_labels};
use dns_wire::copy_at;
use std::alloc::{AllocError, Global};

/// How many octets a name has in canonical form, and where it ends in the message.
#[derive(Clone, Copy, Debug, PartialEq, Eq)]
pub struct NameSpan {
    /// The number of octets, from 1 to 255.
    pub size: usize,
    /// The place after the name: after its root, or after its first pointer.
    pub end: usize,
}

/// Puts the root after the labels at the beginning of the buffer, and all in lowercase.
fn put_root(buffer: &mut [u8], size: usize)
    requires { size < length buffer.old }
    ensures name { take (size + 1) buffer.new ≡ str_to_ascii_lowercase (take size buffer.old ++ 0 ∷ []) }
    ensures long { length buffer.new ≡ length buffer.old }
{
    copy_at(&[0], buffer, size);
    buffer[..size + 1].make_ascii_lowercase();
}

/// Reads a name's own labels, and writes their octets in lowercase and that of a root after them to the beginning of a buffer of 255 octets.
/// `None` comes only if no name is there.
pub fn read_own_labels(contents: &[u8], start: usize, buffer: &mut [u8]) -> Option<OwnLabels>
    requires room { length buffer.old ≡ 255 }
    ensures read { IfSome result (HasOwnLabels contents.now start buffer.new) }
    ensures none { IfNone result (name_at contents.now start ≡ None) }
    ensures room { length buffer.new ≡ 255 }
{
    let Ok(own) = copy_own_labels(contents, start, buffer, 0) else {
        return None;
    };
    put_root(buffer, own.size);
    Some(own)
}

impl FinalTargets<'_> {
    /// Reads the name at a place of the contents, of which only those up to `end` are read, and writes its octets in lowercase to the
    /// beginning of a buffer of 255 octets. Each of its pointers is followed to its final target at once. `None` comes exactly if no name is
    /// there (RFC 1035 section 4.1.4). `AllocError` is out of memory, and then octets of the buffer are unspecified.
    pub fn read_canonical_name(
        &mut self,
        alloc: Global,
        start: usize,
        end: usize,
        buffer: &mut [u8],
    ) -> Result<Option<NameSpan>, AllocError>
        requires within { end ≤ length self.old }
        requires room { length buffer.old ≡ 255 }
        ensures exact { IfOk result (λ span. IsReadOrNone (take end self.old) start buffer.new span) }
        ensures unchanged { self.new ≡ self.old }
        ensures room { length buffer.new ≡ 255 }
    {
        let contents = &self.contents()[..end];
        let mut place = start;
        let mut size = 0;
        let mut first_end = None;
        loop {
            let Ok(own) = copy_own_labels(contents, place, buffer, size) else {
                return Ok(None);
            };
            let end = first_end.unwrap_or(own.end);
            let Some(target) = own.target else {
                put_root(buffer, own.size);
                let size = own.size + 1;
                return Ok(Some(NameSpan { size, end }));
            };
            size = own.size;
            place = self.final_target(alloc, target)?;
            first_end = Some(end);
        }
    }
}
