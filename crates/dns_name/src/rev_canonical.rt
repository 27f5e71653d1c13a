//! Names from the root on as DNSSEC sees them (RFC 4034 section 6). They are compared as names from their
//! first label on, of which copies are made.

ghost use Rattle.std.specs.Prelude.{◌≡◌, ◌≤◌, length, ⊤};
ghost use Rattle.std.proofs.Common.{refl};
ghost use Rattle.dns_wire.specs.Building.{Builds};
ghost use Rattle.dns_wire.specs.Names.{wire, lowered, IsName};
ghost use Rattle.dns_wire.specs.Reversed.{reversed_name_labels};
ghost use Rattle.dns_name.specs.Composed.{composed_cmp, lowercase_composed_cmp};

use crate::canonical_name::CanonicalName;
use crate::rev_name::RevName;
use crate::rev_name_buf::RevNameBuf;
use dns_wire::{BuildBytes, TruncationError, build_lowercase};
use std::cmp::Ordering;

impl CanonicalName for RevName<'_> {
    ghost name = { λ v. reversed_name_labels v.slice.now };

    ghost octets_are = { λ _. refl };

    ghost always_fits = { λ _. tt };

    ghost ordered = { λ _ _. refl };

    fn composed_size(&self) -> usize {
        self.len()
    }

    fn build_lowercased_at(
        &self,
        bytes: &mut [u8],
        start: usize,
    ) -> Result<usize, TruncationError> {
        build_lowercase(self, bytes, start)
    }

    fn cmp_composed(&self, other: &Self) -> Ordering {
        self.to_name().cmp_composed(&other.to_name())
    }

    fn cmp_lowercase_composed(&self, other: &Self) -> Ordering {
        self.to_name().cmp_lowercase_composed(&other.to_name())
    }
}

impl CanonicalName for RevNameBuf {
    ghost name = { λ labels. labels };

    ghost octets_are = { λ _. refl };

    ghost always_fits = { λ _. tt };

    ghost ordered = { λ _ _. refl };

    fn composed_size(&self) -> usize {
        self.as_revname().composed_size()
    }

    fn build_lowercased_at(
        &self,
        bytes: &mut [u8],
        start: usize,
    ) -> Result<usize, TruncationError> {
        self.as_revname().build_lowercased_at(bytes, start)
    }

    fn cmp_composed(&self, other: &Self) -> Ordering {
        self.as_revname().cmp_composed(&other.as_revname())
    }

    fn cmp_lowercase_composed(&self, other: &Self) -> Ordering {
        self.as_revname()
            .cmp_lowercase_composed(&other.as_revname())
    }
}
