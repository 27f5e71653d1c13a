//! A name with its octets.

ghost use Rattle.std.specs.Prelude.{◌≡◌, ◌+◌, ◌<◌, ◌≤◌, ℕ, List, ◌++◌, length, take, Some, IfOk, OnErr, ⊤};
ghost use Rattle.dns_wire.specs.Octets.{Labels};
ghost use Rattle.dns_wire.specs.Reading.{Gives, all_of, all_at};
ghost use Rattle.dns_wire.proofs.NamesLemmas.{plain_name_leaves, name_ends, plain_name_names, name_at_names};
ghost use Rattle.dns_wire.specs.Names.{plain_name, name_labels};
ghost use Rattle.dns_wire.specs.Pointers.{NameAt, name_at, label_type_count};

use crate::name::Name;
use crate::own_labels::copy_counted;
use crate::steps::Steps;
use dns_wire::{
    BuildBytes, ParseBytes, ParseError, ParseMessageBytes, SplitBytes, SplitMessageBytes,
    TruncationError, copy_at, whole_message,
};
use std::alloc::AllocError;
use std::marker::{Brand, Model};
use std::sync::ledger::{Blank, Ledger};

/// A name that owns its octets, and is seen as its labels. It takes no memory.
///
/// ```
/// let name = NameBuf::from_str("WWW.example.org.")?;
/// println!(rt; "{name}")?; // WWW.example.org.
/// println!(rt; "{}", name == NameBuf::from_str("www.EXAMPLE.org.")?)?; // true
/// ```
#[derive(Debug, Drop)]
pub struct NameBuf {
    size: u8,
    buffer: [u8; Name::MAX_SIZE],
}

impl Model for NameBuf {
    ghost use Rattle.std.specs.Prelude.{◌≡◌, ◌≤◌, take, Some};
    ghost use Rattle.dns_wire.proofs.NamesLemmas.{plain_name_leaves, name_ends, plain_name_names, name_at_names};
    ghost use Rattle.dns_wire.specs.Names.{plain_name, name_labels};
    ghost use Rattle.dns_wire.specs.Octets.{Labels};
    ghost use Rattle.dns_wire.specs.Reading.{all_of};

    ghost Value = { Labels };

    ghost view = { λ b. name_labels (take b.size b.buffer) };

    ghost invariant = { λ b. (b.size ≤ 255) × (all_of (plain_name (take b.size b.buffer)) ≡ Some (name_labels (take b.size b.buffer))) };
}

impl NameBuf {
    /// A copy of the name.
    pub fn copy_from(name: Name<'_>) -> NameBuf
        ensures { result ≡ name_labels name.entry.slice.now }
    {
        let octets = name.as_bytes();
        let mut buffer = [0; Name::MAX_SIZE];
        copy_at(octets, &mut buffer, 0);
        NameBuf::from_buffer(buffer, octets.len())
    }

    /// The name whose octets are that many at the start of the buffer.
    pub fn from_buffer(buffer: [u8; Name::MAX_SIZE], size: usize) -> NameBuf
        requires short { size ≤ 255 }
        requires name { all_of (plain_name (take size buffer)) ≡ Some (name_labels (take size buffer)) }
        ensures { result ≡ name_labels (take size buffer) }
    {
        NameBuf {
            size: size as u8,
            buffer,
        }
    }

    /// The name as a view.
    pub fn as_name(&self) -> Name<'_>
        ensures { name_labels result.slice.now ≡ self.now }
    {
        Name {
            slice: &self.buffer[..self.size as usize],
        }
    }
}

/// Reads the name at the place, its pointers followed, and gives the place where it ends. Each label is
/// copied once, and the first that leaves no room for the root ends the reading. Each length octet and each
/// pointer is a step.
fn read_name<L: Ledger>(
    contents: &[u8],
    start: usize,
    steps: &mut Steps<L>,
) -> Result<(NameBuf, usize), ParseError>
    ensures exact { Gives (λ x. (x.0, x.1)) result (name_at contents.now start) }
    ensures within { IfOk result (λ x. (start ≤ x.1) × (x.1 ≤ length contents.now)) }
    ensures counts { IfOk result (λ x. (found : NameAt contents.now start x.0 x.1) → steps.new ≡ steps.old + label_type_count found.reads) }
    ensures bound { steps.new ≤ steps.old + (129 + start) }
    ensures no_fewer { steps.old ≤ steps.new }
{
    let mut buffer = [0; Name::MAX_SIZE];
    let mut size = 0;
    let mut place = start;
    let mut end = None;
    loop {
        let own = copy_counted(contents, place, &mut buffer, size, steps)?;
        let name_end = end.unwrap_or(own.end);
        let Some(target) = own.target else {
            copy_at(&[0], &mut buffer, own.size);
            let name = NameBuf::from_buffer(buffer, own.size + 1);
            return Ok((name, name_end));
        };
        size = own.size;
        place = target;
        end = Some(name_end);
    }
}

/// Reads the name at the place, where nobody counts.
fn read_uncounted<L: Ledger>(
    contents: &[u8],
    start: usize,
    blank: Blank,
) -> Result<(NameBuf, usize), ParseError>
    requires name { blank.name ≡ L.name }
    requires parts { blank.parts ≡ L.parts }
    requires some { 0 < blank.parts }
    ensures exact { Gives (λ x. (x.0, x.1)) result (name_at contents.now start) }
    ensures within { IfOk result (λ x. (start ≤ x.1) × (x.1 ≤ length contents.now)) }
{
    let mut steps: Steps<L> = Steps::new(blank);
    read_name(contents, start, &mut steps)
}

impl NameBuf {
    /// Reads the name at the place as `split_message_bytes` does, and counts: the length octet of each label and of
    /// the root is a step, and so is each pointer. Whatever the pointers, there are at most 129 and one for
    /// each octet before the place.
    pub fn split_counted<L: Ledger>(
        contents: &[u8],
        start: usize,
        steps: &mut Steps<L>,
    ) -> Result<(NameBuf, usize), ParseError>
        ensures exact { Gives (λ x. (x.0, x.1)) result (name_at contents.now start) }
        ensures within { IfOk result (λ x. (start ≤ x.1) × (x.1 ≤ length contents.now)) }
        ensures follows { IfOk result (λ x. NameAt contents.now start x.0 x.1) }
        ensures refused { OnErr result ((labels : Labels) (end : ℕ) → ¬ NameAt contents.now start labels end) }
        ensures counts { IfOk result (λ x. (found : NameAt contents.now start x.0 x.1) → steps.new ≡ steps.old + label_type_count found.reads) }
        ensures bound { steps.new ≤ steps.old + (129 + start) }
        ensures no_fewer { steps.old ≤ steps.new }
    {
        read_name(contents, start, steps)
    }
}

impl Clone for NameBuf {
    ghost is_clone = { λ a b. b ≡ a };

    ghost is_infallible = { λ _. ⊤ };

    fn clone(&self) -> Result<NameBuf, AllocError> {
        Ok(NameBuf {
            size: self.size,
            buffer: self.buffer,
        })
    }
}

/// A name without pointers.
impl<'a> ParseBytes<'a> for NameBuf {
    ghost Seen = { Labels };

    ghost seen = { λ v. v };

    ghost reads = { plain_name };

    ghost reads_at = { name_at };

    ghost leaves_rest = { plain_name_leaves };

    ghost ends_within = { name_ends };

    fn parse_bytes(bytes: &'a [u8]) -> Result<NameBuf, ParseError> {
        let name = Name::parse_bytes(bytes)?;
        Ok(NameBuf::copy_from(name))
    }
}

impl<'a> SplitBytes<'a> for NameBuf {
    fn split_bytes(bytes: &'a [u8]) -> Result<(NameBuf, &'a [u8]), ParseError> {
        let (name, rest) = Name::split_bytes(bytes)?;
        Ok((NameBuf::copy_from(name), rest))
    }
}

/// A name whose pointers are followed (RFC 1035 section 4.1.4).
impl<'a> ParseMessageBytes<'a> for NameBuf {
    /// Reads the name from the place to the end of the contents. `ParseError` comes exactly
    /// if there is none.
    fn parse_message_bytes(contents: &'a [u8], start: usize) -> Result<NameBuf, ParseError>
        ensures exact { Gives (λ v. v) result (all_at contents.now (name_at contents.now start)) }
        ensures follows { IfOk result (λ v. NameAt contents.now start v (length contents.now)) }
        ensures refused { OnErr result ((labels : Labels) → ¬ NameAt contents.now start labels (length contents.now)) }
    {
        whole_message(
            read_uncounted::<Brand>(contents, start, Blank::new(1)),
            contents,
        )
    }
}

impl<'a> SplitMessageBytes<'a> for NameBuf {
    /// Reads the name at the place, and gives the place where it ends. `ParseError` comes exactly if
    /// none is there.
    fn split_message_bytes(contents: &'a [u8], start: usize) -> Result<(NameBuf, usize), ParseError>
        ensures exact { Gives (λ x. (x.0, x.1)) result (name_at contents.now start) }
        ensures within { IfOk result (λ x. (start ≤ x.1) × (x.1 ≤ length contents.now)) }
        ensures follows { IfOk result (λ x. NameAt contents.now start x.0 x.1) }
        ensures refused { OnErr result ((labels : Labels) (end : ℕ) → ¬ NameAt contents.now start labels end) }
    {
        read_uncounted::<Brand>(contents, start, Blank::new(1))
    }
}

impl BuildBytes for NameBuf {
    ghost use Rattle.std.specs.Prelude.{⊤};
    ghost use Rattle.dns_wire.specs.Building.{Builds};
    ghost use Rattle.dns_wire.proofs.NamesLemmas.{plain_name_leaves, name_ends, plain_name_names, name_at_names};
    ghost use Rattle.dns_wire.specs.Names.{wire};

    ghost octets = { λ v. wire v };

    fn build_at(&self, bytes: &mut [u8], start: usize) -> Result<usize, TruncationError> {
        self.as_name().build_at(bytes, start)
    }

    /// The number of octets, from 1 to 255.
    fn built_bytes_size(&self) -> usize
        ensures size { result ≡ length (wire self.now) }
        ensures short { result ≤ 255 }
    {
        self.as_name().built_bytes_size()
    }
}
