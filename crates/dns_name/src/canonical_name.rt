//! Names as DNSSEC sees them (RFC 4034 section 6): in lowercase, and in the orders of their octets.

ghost use Rattle.std.specs.Prelude.{◌≡◌, ◌≤◌, ◌<◌, length, drop, IfOk, OnOk, OnErr, ⊤};
ghost use Rattle.std.specs.Borrow.{sem};
ghost use Rattle.std.proofs.Common.{refl};
ghost use Rattle.dns_wire.specs.Building.{Builds, LendsRest};
ghost use Rattle.dns_wire.specs.Names.{wire, lowered, name_labels, IsName};
ghost use Rattle.dns_name.specs.Composed.{composed_cmp, lowercase_composed_cmp};
ghost use Rattle.dns_name.specs.Order.{key, key_cmp};
ghost use Rattle.dns_wire.specs.Octets.{Labels};

use crate::name::Name;
use crate::name_buf::NameBuf;
use dns_wire::{BuildBytes, TruncationError, build_lowercase, compare_lowercase};
use std::cmp::Ordering;
use std::rc::Rc;

/// A name in whatever layout: it is written as its octets, the root last, and `Ord` is label order.
pub trait CanonicalName: BuildBytes + Ord {
    /// The labels, without the root.
    ghost name: { Self → Labels };

    /// The number of octets, from 1 to 255. That the labels are a name is shown by it, with no other name to
    /// compare with.
    fn composed_size(&self) -> usize
        ensures size { result ≡ length (wire (name self.now)) }
        ensures name { IsName (name self.now) };

    /// Writes the octets in lowercase at a place of the buffer, and gives the place where they end.
    /// It is accepted exactly if they are at most the octets from `start` on. After `TruncationError`
    /// the octets before `start` are as before.
    fn build_lowercased_at(&self, bytes: &mut [u8], start: usize) -> Result<usize, TruncationError>
        requires { start ≤ length bytes.old }
        ensures { Builds ⊤ (wire (lowered (name self.now))) bytes.old start bytes.new result };

    /// The order of the octets, as they are (RFC 4034 section 6.3).
    fn cmp_composed(&self, other: &Self) -> Ordering
        ensures order { result ≡ composed_cmp (name self.now) (name other.now) }
        ensures names { IsName (name self.now) × IsName (name other.now) };

    /// The order of the octets in lowercase (RFC 4034 sections 6.2 and 6.3).
    fn cmp_lowercase_composed(&self, other: &Self) -> Ordering
        ensures order { result ≡ lowercase_composed_cmp (name self.now) (name other.now) }
        ensures names { IsName (name self.now) × IsName (name other.now) };

    /// Writes the octets in lowercase to the beginning of the buffer. What is after them is borrowed back
    /// as it was. `TruncationError` comes exactly if they are more than the buffer's; what the buffer
    /// holds then is unspecified.
    final fn build_lowercased_bytes<'b>(
        &self,
        bytes: &'b mut [u8],
    ) -> Result<&'b mut [u8], TruncationError>
        ensures* written { sem 𝓛 (LendsRest bytes.entry result (wire (lowered (name self.now)))) }
        ensures rest { IfOk result (λ rest. rest.now ≡ drop (length (wire (lowered (name self.now)))) bytes.old) }
        ensures accepted { OnOk result (length (wire (lowered (name self.now))) ≤ length bytes.old) }
        ensures refused { OnErr result (length bytes.old < length (wire (lowered (name self.now)))) }
    {
        match self.build_lowercased_at(bytes, 0) {
            Ok(end) => Ok(&mut bytes[end..]),
            Err(error) => Err(error),
        }
    }

    /// What is written is the name's octets.
    ghost octets_are: { (x : Self) → Self.octets x ≡ wire (name x) };

    /// A name has no prefixed data.
    ghost always_fits: { (x : Self) → Self.fits x };

    /// The order is by labels from the root on (RFC 4034 section 6.1).
    ghost ordered: { (x y : Self) → Self.cmp x y ≡ key_cmp (key (name x)) (key (name y)) };
}

impl CanonicalName for Name<'_> {
    ghost name = { λ v. name_labels v.slice.now };

    ghost octets_are = { λ _. refl };

    ghost always_fits = { λ _. tt };

    ghost ordered = { λ _ _. refl };

    fn composed_size(&self) -> usize {
        self.len()
    }

    fn build_lowercased_at(
        &self,
        bytes: &mut [u8],
        start: usize,
    ) -> Result<usize, TruncationError> {
        build_lowercase(self, bytes, start)
    }

    fn cmp_composed(&self, other: &Self) -> Ordering {
        self.as_bytes().cmp(&other.as_bytes())
    }

    fn cmp_lowercase_composed(&self, other: &Self) -> Ordering {
        compare_lowercase(self.as_bytes(), other.as_bytes())
    }
}

impl CanonicalName for NameBuf {
    ghost name = { λ labels. labels };

    ghost octets_are = { λ _. refl };

    ghost always_fits = { λ _. tt };

    ghost ordered = { λ _ _. refl };

    fn composed_size(&self) -> usize {
        self.as_name().composed_size()
    }

    fn build_lowercased_at(
        &self,
        bytes: &mut [u8],
        start: usize,
    ) -> Result<usize, TruncationError> {
        self.as_name().build_lowercased_at(bytes, start)
    }

    fn cmp_composed(&self, other: &Self) -> Ordering {
        self.as_name().cmp_composed(&other.as_name())
    }

    fn cmp_lowercase_composed(&self, other: &Self) -> Ordering {
        self.as_name().cmp_lowercase_composed(&other.as_name())
    }
}

impl<N: CanonicalName> CanonicalName for &N {
    ghost name = { λ v. N.name v.now };

    ghost octets_are = { λ v. N.octets_are v.now };

    ghost always_fits = { λ v. N.always_fits v.now };

    ghost ordered = { λ v w. N.ordered v.now w.now };

    fn composed_size(&self) -> usize {
        (**self).composed_size()
    }

    fn build_lowercased_at(
        &self,
        bytes: &mut [u8],
        start: usize,
    ) -> Result<usize, TruncationError> {
        (**self).build_lowercased_at(bytes, start)
    }

    fn cmp_composed(&self, other: &Self) -> Ordering {
        (**self).cmp_composed(*other)
    }

    fn cmp_lowercase_composed(&self, other: &Self) -> Ordering {
        (**self).cmp_lowercase_composed(*other)
    }
}

impl<N: CanonicalName> CanonicalName for Box<N> {
    ghost name = { λ v. N.name v.value };

    ghost octets_are = { λ v. N.octets_are v.value };

    ghost always_fits = { λ v. N.always_fits v.value };

    ghost ordered = { λ v w. N.ordered v.value w.value };

    fn composed_size(&self) -> usize {
        self.as_ref().composed_size()
    }

    fn build_lowercased_at(
        &self,
        bytes: &mut [u8],
        start: usize,
    ) -> Result<usize, TruncationError> {
        self.as_ref().build_lowercased_at(bytes, start)
    }

    fn cmp_composed(&self, other: &Self) -> Ordering {
        self.as_ref().cmp_composed(other.as_ref())
    }

    fn cmp_lowercase_composed(&self, other: &Self) -> Ordering {
        self.as_ref().cmp_lowercase_composed(other.as_ref())
    }
}

impl<N: CanonicalName> CanonicalName for Rc<N> {
    ghost name = { λ v. N.name v.value };

    ghost octets_are = { λ v. N.octets_are v.value };

    ghost always_fits = { λ v. N.always_fits v.value };

    ghost ordered = { λ v w. N.ordered v.value w.value };

    fn composed_size(&self) -> usize {
        (**self).composed_size()
    }

    fn build_lowercased_at(
        &self,
        bytes: &mut [u8],
        start: usize,
    ) -> Result<usize, TruncationError> {
        (**self).build_lowercased_at(bytes, start)
    }

    fn cmp_composed(&self, other: &Self) -> Ordering {
        (**self).cmp_composed(&**other)
    }

    fn cmp_lowercase_composed(&self, other: &Self) -> Ordering {
        (**self).cmp_lowercase_composed(&**other)
    }
}
