//! A name from the root on, with its octets.

ghost use Rattle.std.specs.Prelude.{◌≡◌, ◌≤◌, ◌<◌, ℕ, List, length, drop, Some, IfOk, OnErr, ⊤};
ghost use Rattle.dns_wire.specs.Octets.{Labels};
ghost use Rattle.dns_wire.specs.Reading.{Gives, all_of, all_at};
ghost use Rattle.dns_wire.proofs.NamesLemmas.{plain_name_leaves, name_ends, plain_name_names, name_at_names};
ghost use Rattle.dns_wire.specs.Names.{plain_name, wire};
ghost use Rattle.dns_wire.specs.Pointers.{NameAt, name_at};
ghost use Rattle.dns_wire.specs.Reversed.{reversed_name, reversed_name_labels};

use crate::name::Name;
use crate::name_buf::NameBuf;
use crate::relative_name::copy_before;
use crate::rev_name::RevName;
use dns_wire::{
    BuildBytes, ParseBytes, ParseError, ParseMessageBytes, SplitBytes, SplitMessageBytes,
    TruncationError, whole_message,
};
use std::alloc::AllocError;
use std::marker::Model;

/// A name from the root on that owns its octets, and is seen as its labels, from the first to the last. It
/// takes no memory.
#[derive(Debug, Drop)]
pub struct RevNameBuf {
    /// Where the root's 0 is in the buffer. The name ends with it, so that labels can be put before
    /// others.
    offset: u8,
    buffer: [u8; RevName::MAX_SIZE],
}

impl Model for RevNameBuf {
    ghost use Rattle.std.specs.Prelude.{◌≡◌, ◌<◌, drop, Some};
    ghost use Rattle.dns_wire.specs.Octets.{Labels};
    ghost use Rattle.dns_wire.specs.Reversed.{reversed_name, reversed_name_labels};

    ghost Value = { Labels };

    ghost view = { λ b. reversed_name_labels (drop b.offset b.buffer) };

    ghost invariant = { λ b. (b.offset < 255) × (reversed_name (drop b.offset b.buffer) ≡ Some (reversed_name_labels (drop b.offset b.buffer))) };
}

impl RevNameBuf {
    /// A copy of the name.
    pub fn copy_from(name: RevName<'_>) -> RevNameBuf
        ensures { result ≡ reversed_name_labels name.entry.slice.now }
    {
        let octets = name.as_bytes();
        let mut buffer = [0; RevName::MAX_SIZE];
        copy_before(octets, &mut buffer, RevName::MAX_SIZE);
        RevNameBuf::from_buffer(buffer, RevName::MAX_SIZE - octets.len())
    }

    /// The name whose octets are those of the buffer from `offset` on.
    pub(crate) fn from_buffer(buffer: [u8; RevName::MAX_SIZE], offset: usize) -> RevNameBuf
        requires early { offset < 255 }
        requires name { reversed_name (drop offset buffer) ≡ Some (reversed_name_labels (drop offset buffer)) }
        ensures { result ≡ reversed_name_labels (drop offset buffer) }
    {
        RevNameBuf {
            offset: offset as u8,
            buffer,
        }
    }

    /// The name as a view.
    pub fn as_revname(&self) -> RevName<'_>
        ensures { reversed_name_labels result.slice.now ≡ self.now }
    {
        RevName {
            slice: &self.buffer[self.offset as usize..],
        }
    }
}

impl Clone for RevNameBuf {
    ghost is_clone = { λ a b. b ≡ a };

    ghost is_infallible = { λ _. ⊤ };

    fn clone(&self) -> Result<RevNameBuf, AllocError> {
        Ok(RevNameBuf {
            offset: self.offset,
            buffer: self.buffer,
        })
    }
}

/// Reads the name at the place, its pointers followed, and gives the place where it ends.
fn read_reversed(contents: &[u8], start: usize) -> Result<(RevNameBuf, usize), ParseError>
    ensures exact { Gives (λ x. (x.0, x.1)) result (name_at contents.now start) }
    ensures within { IfOk result (λ x. (start ≤ x.1) × (x.1 ≤ length contents.now)) }
{
    let (name, end) = NameBuf::split_message_bytes(contents, start)?;
    Ok((name.as_name().to_revname(), end))
}

/// The octets of a name without pointers, its first label first.
impl<'a> ParseBytes<'a> for RevNameBuf {
    ghost Seen = { Labels };

    ghost seen = { λ v. v };

    ghost reads = { plain_name };

    ghost reads_at = { name_at };

    ghost leaves_rest = { plain_name_leaves };

    ghost ends_within = { name_ends };

    fn parse_bytes(bytes: &'a [u8]) -> Result<RevNameBuf, ParseError> {
        let name = Name::parse_bytes(bytes)?;
        Ok(name.to_revname())
    }
}

impl<'a> SplitBytes<'a> for RevNameBuf {
    fn split_bytes(bytes: &'a [u8]) -> Result<(RevNameBuf, &'a [u8]), ParseError> {
        let (name, rest) = Name::split_bytes(bytes)?;
        Ok((name.to_revname(), rest))
    }
}

/// A name whose pointers are followed (RFC 1035 section 4.1.4).
impl<'a> ParseMessageBytes<'a> for RevNameBuf {
    /// Reads the name from the place to the end of the contents. `ParseError` comes exactly
    /// if there is none.
    fn parse_message_bytes(contents: &'a [u8], start: usize) -> Result<RevNameBuf, ParseError>
        ensures exact { Gives (λ v. v) result (all_at contents.now (name_at contents.now start)) }
        ensures follows { IfOk result (λ v. NameAt contents.now start v (length contents.now)) }
        ensures refused { OnErr result ((labels : Labels) → ¬ NameAt contents.now start labels (length contents.now)) }
    {
        whole_message(read_reversed(contents, start), contents)
    }
}

impl<'a> SplitMessageBytes<'a> for RevNameBuf {
    /// Reads the name at the place, and gives the place where it ends. `ParseError` comes exactly if
    /// none is there.
    fn split_message_bytes(
        contents: &'a [u8],
        start: usize,
    ) -> Result<(RevNameBuf, usize), ParseError>
        ensures exact { Gives (λ x. (x.0, x.1)) result (name_at contents.now start) }
        ensures within { IfOk result (λ x. (start ≤ x.1) × (x.1 ≤ length contents.now)) }
        ensures follows { IfOk result (λ x. NameAt contents.now start x.0 x.1) }
        ensures refused { OnErr result ((labels : Labels) (end : ℕ) → ¬ NameAt contents.now start labels end) }
    {
        read_reversed(contents, start)
    }
}

/// The octets with the first label first and the root last.
impl BuildBytes for RevNameBuf {
    ghost use Rattle.dns_wire.specs.Building.{Builds};

    ghost octets = { λ v. wire v };

    fn build_at(&self, bytes: &mut [u8], start: usize) -> Result<usize, TruncationError> {
        self.as_revname().build_at(bytes, start)
    }

    /// The number of octets, from 1 to 255.
    fn built_bytes_size(&self) -> usize
        ensures size { result ≡ length (wire self.now) }
        ensures short { result ≤ 255 }
    {
        self.as_revname().built_bytes_size()
    }
}
