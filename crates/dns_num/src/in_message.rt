//! Data in a message after the number of their octets.

ghost use Rattle.std.specs.Prelude.{◌≡◌, ◌+◌, ◌<◌, ◌≤◌, ◌^◌, ◌++◌, length, take, drop, ⊤};
ghost use Rattle.std.specs.Int.{byte_len, to_be_bytes};
ghost use Rattle.dns_wire.specs.Building.{Builds};
ghost use Rattle.dns_num.specs.InMessage.{zeros, sized_compressed_writes, sized_fits};

use crate::size_prefix::{SizePrefix, can_say};
use crate::size_prefixed::SizePrefixed;
use dns_wire::{BuildInMessage, NameCompressor, TruncationError};

/// Puts a size over the octets at a place.
fn fill_size<S: SizePrefix>(size: usize, contents: &mut [u8], start: usize)
    requires room { start + byte_len S.number_width ≤ length contents.old }
    requires says { size < 256 ^ byte_len S.number_width }
    ensures { contents.new ≡ take start contents.old ++ (to_be_bytes S.number_width size ++ drop (start + byte_len S.number_width) contents.old) }
{
    S::write_size(size, &mut contents[start..]);
}

/// Writes zeros for a size that is not known yet, and gives the place after them.
fn put_zeros<S: SizePrefix>(contents: &mut [u8], start: usize) -> Result<usize, TruncationError>
    requires { start ≤ length contents.old }
    ensures { Builds ⊤ (zeros S.number_width) contents.old start contents.new result }
{
    let width = S::width();
    if contents.len() - start < width {
        return Err(TruncationError);
    }
    fill_size::<S>(0, contents, start);
    Ok(start + width)
}

/// The data are written after zeros, and the number of their octets is written over these last. Data of more
/// octets than the prefix can say are `TruncationError`.
impl<S: SizePrefix, T: BuildInMessage> BuildInMessage for SizePrefixed<S, T> {
    ghost writes = { λ v. sized_compressed_writes S.number_width (T.writes v) };

    ghost fits_in = { λ v. sized_fits S.number_width (T.fits_in v) (T.writes v) };

    ghost layout_matches = { λ _. tt };

    fn build_in_message(
        &self,
        contents: &mut [u8],
        start: usize,
        compressor: &mut NameCompressor,
    ) -> Result<usize, TruncationError> {
        let known = compressor.places().len();
        let body = put_zeros::<S>(contents, start)?;
        let end = self.inner().build_in_message(contents, body, compressor)?;
        let size = end - body;
        if !can_say::<S>(size) {
            compressor.truncate(known);
            return Err(TruncationError);
        }
        fill_size::<S>(size, contents, start);
        Ok(end)
    }
}
