//! The octets of a canonical list, one record after the other.

ghost use Rattle.std.specs.Prelude.{◌≡◌, ◌+◌, ◌≤◌, ◌↔◌, IsTrue, length, map};
ghost use Rattle.std.specs.List.{concat};
ghost use Rattle.dns_message.specs.Order.{octets_of_key};
ghost use Rattle.dns_wire.specs.Building.{Occurs};
ghost use Rattle.nelgvasti.specs.Buffers.{Fills};

use dns_message::{CanonicalForm, CanonicalList};
use dns_wire::put;

/// Writes the octets of the list to the start of a buffer, one record after the other.
pub(crate) fn put_list(list: &CanonicalList<'_>, out: &mut [u8])
    requires { length (concat (map octets_of_key list.now)) ≤ length out.old }
    ensures { Fills (concat (map octets_of_key list.now)) out.old out.new }
{
    let mut end = 0;
    for form in list.forms() {
        end = put_form(form, out, end);
    }
}

/// Writes the octets of a form at a place of a buffer, and gives the place where they end.
fn put_form(form: &CanonicalForm<'_>, out: &mut [u8], start: usize) -> usize
    requires { start + length (octets_of_key form.now) ≤ length out.old }
    ensures { Occurs (octets_of_key form.now) out.old start out.new result }
{
    put(form.octets(), out, start).unwrap()
}

/// Whether two lists have the same octets. Each borrows forms of its own.
pub(crate) fn are_same(list: &CanonicalList<'_>, other: &CanonicalList<'_>) -> bool
    ensures { IsTrue result ↔ (map octets_of_key list.now ≡ map octets_of_key other.now) }
{
    *list == *other
}
