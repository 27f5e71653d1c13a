//! Octets in a buffer of the caller's.

ghost use Rattle.std.specs.Prelude.{◌≡◌, ◌≢◌, length};
ghost use Rattle.nelgvasti.specs.Buffers.{Fills, room_answer};

use crate::answers::{DONE, TOO_SMALL};
use dns_wire::copy_at;

/// Writes octets to the start of a buffer if it has room, and their number.
pub(crate) fn put_octets(octets: &[u8], out: &mut [u8], out_length: &mut usize) -> u32
    ensures answer { result ≡ room_answer octets.now (length out.old) }
    ensures done { result ≡ DONE → Fills octets.now out.old out.new }
    ensures unwritten { result ≢ DONE → out.new ≡ out.old }
    ensures length { out_length.new ≡ length octets.now }
{
    *out_length = octets.len();
    if out.len() < octets.len() {
        return TOO_SMALL;
    }
    copy_at(octets, out, 0);
    DONE
}
