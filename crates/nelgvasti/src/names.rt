//! Names in canonical form and order.

ghost use Rattle.std.specs.Prelude.{◌≡◌, ◌≢◌, ◌<◌, ◌⊎◌, length};
ghost use Rattle.std.specs.declared.cmp.Ordering.{Ordering};
ghost use Rattle.dns_wire.specs.Octets.{Labels};
ghost use Rattle.dns_wire.specs.Names.{lowered, wire};
ghost use Rattle.dns_name.specs.Order.{key, key_cmp};
ghost use Rattle.nelgvasti.specs.Buffers.{Fills};
ghost use Rattle.nelgvasti.specs.Calls.{HasName, HasNoName, order_number};

use crate::answers::{DONE, TOO_SMALL, USAGE};
use dns_name::{CanonicalName, Name};
use dns_wire::ParseBytes;
use std::cmp::Ordering;

/// The number for an order: -1, 0 or 1.
pub(crate) fn order_number(order: Ordering) -> i32
    ensures { result ≡ order_number order }
{
    match order {
        Ordering::Less => -1,
        Ordering::Equal => 0,
        Ordering::Greater => 1,
    }
}

/// Writes the canonical form of a name, which is its octets in lowercase (RFC 4034 section 6.2), and their number, which is from 1 to 255.
#[unsafe(no_mangle)]
pub extern "C" fn nelgvasti_canonical_name(
    name: &[u8],
    out: &mut [u8],
    out_length: &mut usize,
) -> u32
    // What is written.
    ensures done { result ≡ DONE → (labels : Labels) × HasName name.now labels
        × Fills (wire (lowered labels)) out.old out.new × (out_length.new ≡ length (wire (lowered labels))) }
    ensures too_small { result ≡ TOO_SMALL → (labels : Labels) × HasName name.now labels
        × (length out.old < length (wire (lowered labels))) × (out_length.new ≡ length (wire (lowered labels))) }
    ensures unwritten { result ≢ DONE → out.new ≡ out.old }
    ensures length { result ≢ DONE → result ≢ TOO_SMALL → out_length.new ≡ out_length.old }

    // Why nothing is written. There is no other answer.
    ensures usage { result ≡ USAGE → HasNoName name.now }
    ensures expected { (result ≡ DONE) ⊎ ((result ≡ TOO_SMALL) ⊎ (result ≡ USAGE)) }
{
    let Ok(name) = Name::parse_bytes(name) else {
        return USAGE;
    };
    *out_length = name.len();
    if out.len() < name.len() {
        return TOO_SMALL;
    }
    name.build_lowercased_at(out, 0).unwrap();
    DONE
}

/// Writes -1, 0 or 1 if the first name comes before the second, is the same except for ASCII case, or comes after it, in canonical order
/// (RFC 4034 section 6.1).
#[unsafe(no_mangle)]
pub extern "C" fn nelgvasti_compare_names(first: &[u8], second: &[u8], order: &mut i32) -> u32
    ensures done { result ≡ DONE → (labels others : Labels) × HasName first.now labels × HasName second.now others
        × (order.new ≡ order_number (key_cmp (key labels) (key others))) }
    ensures usage { result ≡ USAGE → HasNoName first.now ⊎ HasNoName second.now }
    ensures unwritten { result ≢ DONE → order.new ≡ order.old }
    ensures expected { (result ≡ DONE) ⊎ (result ≡ USAGE) }
{
    let Ok(first) = Name::parse_bytes(first) else {
        return USAGE;
    };
    let Ok(second) = Name::parse_bytes(second) else {
        return USAGE;
    };
    *order = order_number(first.cmp(&second));
    DONE
}
