//! Writing a name in a message, with a pointer in place of the longest suffix that is known.

ghost use Rattle.std.specs.Prelude.{◌≡◌, ◌≤◌, Some, length, take, ⊤, IfSome};
ghost use Rattle.dns_wire.specs.Building.{Builds};
ghost use Rattle.dns_wire.specs.Compression.{FitsIn, cut_at, compressed_name_writes};
ghost use Rattle.dns_wire.specs.InMessage.{BuildsIn};
ghost use Rattle.dns_wire.specs.Names.{plain_name, name_labels};
ghost use Rattle.dns_wire.specs.Reading.{all_of};

use crate::build::put;
use crate::compression::compressor::NameCompressor;
use crate::error::TruncationError;
use crate::sizes::{HEADER_SIZE, LAST_PLACE, POINTER_TAG};

/// Writes the octets of a name up to a known suffix, and a pointer to its place: two bits 1, and the place
/// counted from the start of the header, which has 12 octets.
fn put_cut(
    name: &[u8],
    known: Option<(usize, u16)>,
    contents: &mut [u8],
    start: usize,
) -> Result<usize, TruncationError>
    requires room { start ≤ length contents.old }
    requires known { IfSome known (λ k. (k.0 ≤ length name.now) × (k.1 ≤ LAST_PLACE)) }
    ensures { Builds ⊤ (cut_at name.now known) contents.old start contents.new result }
{
    match known {
        None => put(name, contents, start),
        Some((prefix, place)) => {
            let middle = put(&name[..prefix], contents, start)?;
            let pointer = POINTER_TAG as u16 * 256 + HEADER_SIZE as u16 + place;
            put(&pointer.to_be_bytes(), contents, middle)
        }
    }
}

/// Writes a name at a place of the contents, which are the octets after the header, and gives the place
/// where it ends. The longest suffix that the compressor knows is a pointer, and the places of the labels
/// before it are noted (RFC 1035 section 4.1.4). It is accepted exactly if there is room. After
/// `TruncationError` the octets before `start` and the compressor are as before.
pub fn put_name(
    name: &[u8],
    contents: &mut [u8],
    start: usize,
    compressor: &mut NameCompressor,
) -> Result<usize, TruncationError>
    requires name { all_of (plain_name name.now) ≡ Some (name_labels name.now) }
    requires room { start ≤ length contents.old }
    requires known { FitsIn compressor.old (take start contents.old) }
    ensures { BuildsIn ⊤ (compressed_name_writes (name_labels name.now) (take start contents.old) compressor.old)
        contents.old start compressor.old contents.new compressor.new result }
{
    let known = compressor.compress_name(&contents[..start], name);
    let end = put_cut(name, known, contents, start)?;
    compressor.note(contents, start, end);
    Ok(end)
}
