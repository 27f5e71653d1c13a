//! Buffers.

ghost use Rattle.std.specs.Prelude.{◌≡◌, IfOk, replicate, vec_len};

use std::alloc::{AllocError, Global};

/// As many octets 0 as `count`, by copies of a piece: `vec!` would write them one by one. `AllocError` is out of memory.
pub fn zeros(alloc: Global, count: usize) -> Result<Vec<u8>, AllocError>
    ensures zeros { IfOk result (λ octets. octets.items ≡ replicate count 0) }
    ensures size { IfOk result (λ octets. vec_len octets ≡ count) }
{
    let piece = [0u8; 256];
    let mut octets = Vec::with_capacity(alloc, count)?;
    while octets.len() < count {
        let more = (count - octets.len()).min(piece.len());
        octets.extend_from_slice(&piece[..more])?;
    }
    Ok(octets)
}
