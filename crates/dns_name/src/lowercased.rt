//! Names to be written in lowercase.

ghost use Rattle.std.specs.Prelude.{◌≡◌, ◌≤◌, ◌<◌, ◌^◌, length, ⊤};
ghost use Rattle.dns_wire.specs.Building.{Builds};
ghost use Rattle.dns_wire.specs.Names.{wire, lowered};

use crate::canonical_name::CanonicalName;
use dns_wire::{BuildBytes, TruncationError};

/// A name that is written in lowercase, among other parts (RFC 4034 section 6.2).
#[derive(Clone, Copy, Debug)]
pub struct Lowercased<'a, N> {
    /// The name, in whatever case.
    pub name: &'a N,
}

impl<N: CanonicalName> BuildBytes for Lowercased<'_, N> {
    ghost octets = { λ v. wire (lowered (N.name v.name.now)) };

    fn build_at(&self, bytes: &mut [u8], start: usize) -> Result<usize, TruncationError> {
        self.name.build_lowercased_at(bytes, start)
    }

    /// The number of octets, from 1 to 255, which is the same in whatever case.
    fn built_bytes_size(&self) -> usize
        ensures size { result ≡ length (wire (lowered (N.name self.now.name.now))) }
        ensures short { result ≤ 255 }
    {
        self.name.composed_size()
    }
}
