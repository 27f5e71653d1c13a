//! Fields of record data in a message, with names in lowercase.

ghost use Rattle.std.specs.Prelude.{◌≡◌, ◌≤◌, ◌++◌, length, map, take, true, false, IfOk, MatchOption};
ghost use Rattle.dns_wire.specs.Names.{lowered, plain_name, wire};
ghost use Rattle.dns_wire.specs.Octets.{Labels};
ghost use Rattle.dns_wire.specs.Pointers.{name_at};
ghost use Rattle.dns_wire.specs.Reading.{all_at, plain_at};
ghost use Rattle.dns_record.specs.Kinds.{field_in, fields_in};
ghost use Rattle.dns_record.specs.FieldKinds.{is_name_kind, kind_of};
ghost use Rattle.dns_message.specs.LowercaseFields.{KeepsField, PutsField, PutsFields, between};

use crate::name_reader::NameReader;
use crate::plain_fields::after_field;
use dns_chain::NameSpan;
use dns_name::{CanonicalName, Name};
use dns_record::FieldKind;
use dns_wire::SplitBytes;
use std::alloc::{AllocError, Global};

/// Whether a field of the kind is a name.
fn is_name(kind: FieldKind) -> bool
    ensures { result ≡ is_name_kind kind }
{
    matches!(
        kind,
        FieldKind::CompressibleName | FieldKind::UncompressedName
    )
}

/// Where the field at a place ends, of a kind that is no name; `None` exactly if no such field is there.
#[inline(always)]
fn kept_end(kind: FieldKind, contents: &[u8], start: usize) -> Option<usize>
    requires kept { is_name_kind kind ≡ false }
    requires start { start ≤ length contents.now }
    ensures { KeepsField (field_in name_at (kind_of kind) contents.now start) contents.now start result }
{
    match after_field(kind, &contents[start..]) {
        Some(rest) => Some(contents.len() - rest.len()),
        None => None,
    }
}

/// Reads the name at a place, which has no pointers, and writes its octets in lowercase to the beginning of a buffer of 255 octets. `None` comes
/// exactly if no such name is there.
fn read_uncompressed_name(contents: &[u8], start: usize, buffer: &mut [u8]) -> Option<NameSpan>
    requires start { start ≤ length contents.now }
    requires room { length buffer.old ≡ 255 }
    ensures read { MatchOption result (plain_at plain_name contents.now start ≡ None)
        (λ span. (labels : Labels) × (plain_at plain_name contents.now start ≡ Some (labels, span.end)) × (span.size ≤ 255) × (take span.size buffer.new ≡ wire (lowered labels))) }
    ensures room { length buffer.new ≡ 255 }
{
    let Ok((name, rest)) = Name::split_bytes(&contents[start..]) else {
        return None;
    };
    let size = name.composed_size();
    name.build_lowercased_at(buffer, 0).unwrap();
    Some(NameSpan {
        size,
        end: contents.len() - rest.len(),
    })
}

/// Reads the name at a place, of contents of which only those up to `end` are read, and puts its octets in lowercase after the data. It gives the
/// place where the name ends; `None` exactly if none is there. The buffer is of 255 octets. `AllocError` is out of memory.
fn push_name(
    alloc: Global,
    names: &mut NameReader<'_>,
    buffer: &mut [u8],
    rdata: &mut Vec<u8>,
    kind: FieldKind,
    start: usize,
    end: usize,
) -> Result<Option<usize>, AllocError>
    requires named { is_name_kind kind ≡ true }
    requires start { start ≤ end }
    requires within { end ≤ length names.old }
    requires room { length buffer.old ≡ 255 }
    ensures put { IfOk result (λ next. PutsField (field_in name_at (kind_of kind) (take end names.old) start) rdata.old.items next rdata.new.items) }
    ensures unchanged { names.new ≡ names.old }
    ensures room { length buffer.new ≡ 255 }
{
    match kind {
        FieldKind::CompressibleName => {
            let Some(span) = names.read_canonical_name(alloc, start, end, buffer)? else {
                return Ok(None);
            };
            rdata.extend_from_slice(&buffer[..span.size])?;
            Ok(Some(span.end))
        }
        _ => {
            let contents = &names.contents()[..end];
            let Some(span) = read_uncompressed_name(contents, start, buffer) else {
                return Ok(None);
            };
            rdata.extend_from_slice(&buffer[..span.size])?;
            Ok(Some(span.end))
        }
    }
}

/// Puts the octets from a place up to another after the data. `AllocError` is out of memory.
fn push_between(
    rdata: &mut Vec<u8>,
    contents: &[u8],
    from: usize,
    to: usize,
) -> Result<(), AllocError>
    requires order { from ≤ to }
    requires within { to ≤ length contents.now }
    ensures { IfOk result (λ _. rdata.new.items ≡ rdata.old.items ++ between from to contents.now) }
{
    if from == to {
        return Ok(());
    }
    rdata.extend_from_slice(&contents[from..to])
}

/// Reads the fields from a place up to `end`, and puts their octets after the data, names in lowercase. Octets between names are copied at
/// once. Whether the fields are there, and the last ends at `end`. The buffer is of 255 octets. `AllocError` is out of memory.
pub(crate) fn push_fields(
    alloc: Global,
    names: &mut NameReader<'_>,
    buffer: &mut [u8],
    rdata: &mut Vec<u8>,
    kinds: &[FieldKind],
    start: usize,
    end: usize,
) -> Result<bool, AllocError>
    requires start { start ≤ end }
    requires within { end ≤ length names.old }
    requires room { length buffer.old ≡ 255 }
    ensures put { IfOk result (λ read. PutsFields (all_at (take end names.old) (fields_in name_at (map kind_of kinds.now) (take end names.old) start)) rdata.old.items read rdata.new.items) }
    ensures unchanged { names.new ≡ names.old }
    ensures room { length buffer.new ≡ 255 }
{
    let contents = &names.contents()[..end];
    let mut at = start;
    let mut copied = start;
    for kind in kinds {
        if !is_name(*kind) {
            let Some(next) = kept_end(*kind, contents, at) else {
                return Ok(false);
            };
            at = next;
            continue;
        }
        push_between(rdata, contents, copied, at)?;
        let Some(next) = push_name(alloc, names, buffer, rdata, *kind, at, end)? else {
            return Ok(false);
        };
        at = next;
        copied = next;
    }
    push_between(rdata, contents, copied, at)?;
    Ok(at == end)
}
