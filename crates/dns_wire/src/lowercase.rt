//! Octets in lowercase: `A` to `Z` become `a` to `z`, and all others stay (RFC 4343 section 3).

ghost use Rattle.std.specs.Prelude.{◌≡◌, ◌≤◌, length};
ghost use Rattle.std.specs.Str.{str_to_ascii_lowercase};
ghost use Rattle.std.specs.Ordering.{nat_cmp};
ghost use Rattle.std.specs.Cmp.Lexicographic.{slice_cmp};
ghost use Rattle.dns_wire.specs.Agreement.{agreeing_prefix};
ghost use Rattle.dns_wire.specs.Building.{Builds};

use crate::agreement::agreement_from_start;
use crate::build::BuildBytes;
use crate::error::TruncationError;
use std::cmp::Ordering;

/// Writes the value's octets in lowercase at a place of the buffer, and gives the place where they end.
/// After `TruncationError`, which comes as from `build_at`, the octets before `start` are as before.
pub fn build_lowercase<T: BuildBytes>(
    value: &T,
    bytes: &mut [u8],
    start: usize,
) -> Result<usize, TruncationError>
    requires { start ≤ length bytes.old }
    ensures { Builds (T.fits value.now) (str_to_ascii_lowercase (T.octets value.now)) bytes.old start bytes.new result }
{
    let end = value.build_at(bytes, start)?;
    bytes[start..end].make_ascii_lowercase();
    Ok(end)
}

/// The order of octets in lowercase, from the first on; a proper prefix comes first.
pub fn compare_lowercase(a: &[u8], b: &[u8]) -> Ordering
    ensures { result ≡ slice_cmp nat_cmp (str_to_ascii_lowercase a.now) (str_to_ascii_lowercase b.now) }
{
    compare_agreed(a, b, agreement_from_start(a, b))
}

/// As `compare_lowercase`, of octets of which the first `agreed` agree, ignoring ASCII case.
pub fn compare_agreed(a: &[u8], b: &[u8], agreed: usize) -> Ordering
    requires { agreed ≡ agreeing_prefix a.now b.now }
    ensures { result ≡ slice_cmp nat_cmp (str_to_ascii_lowercase a.now) (str_to_ascii_lowercase b.now) }
{
    if agreed < a.len() && agreed < b.len() {
        let first = a[agreed].to_ascii_lowercase();
        return first.cmp(&b[agreed].to_ascii_lowercase());
    }
    a.len().cmp(&b.len())
}
