//! Writing nothing, what a reference or a pointer holds, pairs, and lists.

ghost use Rattle.std.specs.Prelude.{◌≡◌, ◌≤◌, ◌<◌, ◌^◌, [], ◌++◌, length, All, ⊤};
ghost use Rattle.std.specs.List.{flat_map};
ghost use Rattle.dns_wire.specs.Building.{Builds};

use crate::build::BuildBytes;
use crate::error::TruncationError;
use std::rc::Rc;

/// No octets.
impl BuildBytes for () {
    ghost octets = { λ _. [] };

    fn build_at(&self, _bytes: &mut [u8], start: usize) -> Result<usize, TruncationError> {
        Ok(start)
    }

    fn built_bytes_size(&self) -> usize
        ensures { result ≡ 0 }
    {
        0
    }
}

/// What the reference leads to.
impl<T: BuildBytes> BuildBytes for &T {
    ghost octets = { λ v. T.octets v.now };

    ghost fits = { λ v. T.fits v.now };

    fn build_at(&self, bytes: &mut [u8], start: usize) -> Result<usize, TruncationError> {
        (**self).build_at(bytes, start)
    }

    fn built_bytes_size(&self) -> usize {
        (**self).built_bytes_size()
    }
}

/// What the box holds.
impl<T: BuildBytes> BuildBytes for Box<T> {
    ghost octets = { λ v. T.octets v.value };

    ghost fits = { λ v. T.fits v.value };

    fn build_at(&self, bytes: &mut [u8], start: usize) -> Result<usize, TruncationError> {
        (**self).build_at(bytes, start)
    }

    fn built_bytes_size(&self) -> usize {
        (**self).built_bytes_size()
    }
}

/// What the pointer leads to.
impl<T: BuildBytes> BuildBytes for Rc<T> {
    ghost octets = { λ v. T.octets v.value };

    ghost fits = { λ v. T.fits v.value };

    fn build_at(&self, bytes: &mut [u8], start: usize) -> Result<usize, TruncationError> {
        (**self).build_at(bytes, start)
    }

    fn built_bytes_size(&self) -> usize {
        (**self).built_bytes_size()
    }
}

/// Two values, one after the other.
impl<A: BuildBytes, B: BuildBytes> BuildBytes for (A, B) {
    ghost octets = { λ v. A.octets v.0 ++ B.octets v.1 };

    ghost fits = { λ v. A.fits v.0 × B.fits v.1 };

    fn build_at(&self, bytes: &mut [u8], start: usize) -> Result<usize, TruncationError> {
        let middle = self.0.build_at(bytes, start)?;
        self.1.build_at(bytes, middle)
    }

    fn built_bytes_size(&self) -> usize {
        self.0.built_bytes_size() + self.1.built_bytes_size()
    }
}

/// The number of octets of all the values.
fn size_of_all<T: BuildBytes>(values: &[T]) -> usize
    requires { length (flat_map T.octets values.now) < 2 ^ 64 }
    ensures { result ≡ length (flat_map T.octets values.now) }
{
    let mut size = 0;
    for value in values {
        size += value.built_bytes_size();
    }
    size
}

/// The values, one after another.
impl<T: BuildBytes> BuildBytes for &[T] {
    ghost octets = { λ v. flat_map T.octets v.now };

    ghost fits = { λ v. All T.fits v.now };

    fn build_at(&self, bytes: &mut [u8], start: usize) -> Result<usize, TruncationError> {
        T::build_all_at(self, bytes, start)
    }

    fn built_bytes_size(&self) -> usize {
        size_of_all(self)
    }
}

/// The values, one after another.
impl<T: BuildBytes, const N: usize> BuildBytes for [T; N] {
    ghost octets = { λ v. flat_map T.octets v };

    ghost fits = { λ v. All T.fits v };

    fn build_at(&self, bytes: &mut [u8], start: usize) -> Result<usize, TruncationError> {
        T::build_all_at(self, bytes, start)
    }

    fn built_bytes_size(&self) -> usize {
        size_of_all(self)
    }
}

/// The values, one after another.
impl<T: BuildBytes> BuildBytes for Vec<T> {
    ghost octets = { λ v. flat_map T.octets v.items };

    ghost fits = { λ v. All T.fits v.items };

    fn build_at(&self, bytes: &mut [u8], start: usize) -> Result<usize, TruncationError> {
        T::build_all_at(self.as_slice(), bytes, start)
    }

    fn built_bytes_size(&self) -> usize {
        size_of_all(self.as_slice())
    }
}
