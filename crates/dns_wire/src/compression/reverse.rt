//! Names whose octets go from the root on, put in the order of the wire.

ghost use Rattle.std.specs.Prelude.{◌≡◌, ◌+◌, ◌≤◌, ◌++◌, Some, length, take, drop};
ghost use Rattle.dns_wire.specs.Names.{wire};
ghost use Rattle.dns_wire.specs.Reversed.{reversed_name, reversed_name_labels};

use crate::build::copy_at;

/// Copies the octets of a name from the root on to those of the name: its labels from the last to the
/// first, and the root after them.
pub(crate) fn reverse_name(name: &[u8], forward: &mut [u8])
    requires name { reversed_name name.now ≡ Some (reversed_name_labels name.now) }
    requires size { length forward.old ≡ length name.now }
    ensures { forward.new ≡ wire (reversed_name_labels name.now) }
{
    let mut at = 1;
    let mut end = name.len() - 1;
    copy_at(&[0], forward, end);
    while at < name.len() {
        let size = 1 + name[at] as usize;
        end -= size;
        copy_at(&name[at..at + size], forward, end);
        at += size;
    }
}
