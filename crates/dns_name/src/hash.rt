//! Names as a hasher sees them: equal names feed it the same octets.

ghost use Rattle.std.specs.Prelude.{◌≡◌, ◌≤◌, fold, length};
ghost use Rattle.std.specs.Str.{str_to_ascii_lowercase};
ghost use Rattle.dns_wire.specs.Names.{name_labels};
ghost use Rattle.dns_wire.specs.Reversed.{reversed_name_labels};
ghost use Rattle.dns_name.specs.Hashing.{name_writes, reversed_writes, same_names_alike, same_reversed_alike};

use crate::name::Name;
use crate::name_buf::NameBuf;
use crate::rev_name::RevName;
use crate::rev_name_buf::RevNameBuf;
use std::hash::{Hash, Hasher};

/// Feeds the octets in lowercase, in one write.
fn feed_lowercase<H: Hasher>(octets: &[u8], state: &mut H)
    requires { length octets.now ≤ 255 }
    ensures { state.new ≡ H.write state.old (str_to_ascii_lowercase octets.now) }
{
    let mut buffer = [0; Name::MAX_SIZE];
    let lowered = &mut buffer[..octets.len()];
    lowered.copy_from_slice(octets);
    lowered.make_ascii_lowercase();
    state.write(lowered);
}

impl Hash for Name<'_> {
    ghost hash_input = { λ v. name_writes (name_labels v.slice.now) };

    ghost respects_eq = { λ a b same. same_names_alike (name_labels a.slice.now) (name_labels b.slice.now) same };

    /// Feeds the octets in lowercase, in one write.
    fn hash<H: Hasher>(&self, state: &mut H) {
        feed_lowercase(self.as_bytes(), state);
    }
}

impl Hash for NameBuf {
    ghost hash_input = { name_writes };

    ghost respects_eq = { same_names_alike };

    /// Feeds what the name as a view feeds.
    fn hash<H: Hasher>(&self, state: &mut H) {
        self.as_name().hash(state);
    }
}

impl Hash for RevName<'_> {
    ghost hash_input = { λ v. reversed_writes (reversed_name_labels v.slice.now) };

    ghost respects_eq = { λ a b same. same_reversed_alike (reversed_name_labels a.slice.now) (reversed_name_labels b.slice.now) same };

    /// Feeds the octets in lowercase, in one write.
    fn hash<H: Hasher>(&self, state: &mut H) {
        feed_lowercase(self.as_bytes(), state);
    }
}

impl Hash for RevNameBuf {
    ghost hash_input = { reversed_writes };

    ghost respects_eq = { same_reversed_alike };

    /// Feeds what the name as a view feeds.
    fn hash<H: Hasher>(&self, state: &mut H) {
        self.as_revname().hash(state);
    }
}
