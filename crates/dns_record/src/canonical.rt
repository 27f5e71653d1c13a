//! Record data as DNSSEC sees them.

ghost use Rattle.std.specs.Prelude.{◌≡◌, ◌≤◌, ◌<◌, ℕ, List, length, drop, IfOk, OnOk, OnErr, ⊤};
ghost use Rattle.std.specs.Borrow.{sem};
ghost use Rattle.dns_wire.specs.Building.{Builds, LendsRest};
ghost use Rattle.dns_record.specs.Canonical.{ranked_cmp};

use dns_wire::{BuildBytes, TruncationError};
use std::cmp::Ordering;
use std::rc::Rc;

/// Record data that have a canonical form (RFC 4034 section 6.2, RFC 6840 section 5.1) and the order of
/// RFC 4034 section 6.3.
pub trait CanonicalRecordData: BuildBytes {
    /// The canonical octets: the fields in order, names whole, and in lowercase if the type is one
    /// of the nine that `RType::uses_lowercase_canonical_form` names.
    ghost canonical: { Self → List ℕ };

    /// What comes before the octets in the order: the type's number for a choice among types, and else 0.
    ghost rank: { Self → ℕ } = { λ _. 0 };

    /// The value is one that its type should have. Only a choice among types has others: octets under the
    /// number of a type that it knows. Its reading has to give proper values alone, so that what was read can
    /// be compared.
    ghost is_proper: { Self → Type 0 } = { λ _. ⊤ };

    /// Writes the canonical octets at a place of the buffer, and gives the place where they end. It is
    /// accepted exactly if they are at most the octets from `start` on. After `TruncationError` the
    /// octets before `start` are as before.
    fn build_canonical_at(&self, bytes: &mut [u8], start: usize) -> Result<usize, TruncationError>
        requires { start ≤ length bytes.old }
        ensures { Builds ⊤ (canonical self.now) bytes.old start bytes.new result };

    /// The order by rank, and then by the canonical octets; a beginning comes first (RFC 4034 section 6.3).
    fn cmp_canonical(&self, other: &Self) -> Ordering
        requires { is_proper self.now × is_proper other.now }
        ensures { result ≡ ranked_cmp (rank self.now) (rank other.now) (canonical self.now) (canonical other.now) };

    /// Writes the canonical octets to the beginning of the buffer. What is after them is borrowed back as it
    /// was. `TruncationError` comes exactly if they are more than the buffer's; what the buffer holds
    /// then is unspecified.
    final fn build_canonical_bytes<'b>(
        &self,
        bytes: &'b mut [u8],
    ) -> Result<&'b mut [u8], TruncationError>
        ensures* written { sem 𝓛 (LendsRest bytes.entry result (canonical self.now)) }
        ensures rest { IfOk result (λ rest. rest.now ≡ drop (length (canonical self.now)) bytes.old) }
        ensures accepted { OnOk result (length (canonical self.now) ≤ length bytes.old) }
        ensures refused { OnErr result (length bytes.old < length (canonical self.now)) }
    {
        match self.build_canonical_at(bytes, 0) {
            Ok(end) => Ok(&mut bytes[end..]),
            Err(error) => Err(error),
        }
    }

    /// The canonical octets are as many as those that `build_at` writes, since lowercase letters are as many: a
    /// buffer of `built_bytes_size` octets takes either.
    ghost as_long: { (v : Self) → length (canonical v) ≡ length (Self.octets v) };
}

/// What the reference leads to.
impl<T: CanonicalRecordData> CanonicalRecordData for &T {
    ghost canonical = { λ v. T.canonical v.now };

    ghost rank = { λ v. T.rank v.now };

    ghost is_proper = { λ v. T.is_proper v.now };

    ghost as_long = { λ v. T.as_long v.now };

    fn build_canonical_at(&self, bytes: &mut [u8], start: usize) -> Result<usize, TruncationError> {
        (**self).build_canonical_at(bytes, start)
    }

    fn cmp_canonical(&self, other: &Self) -> Ordering {
        (**self).cmp_canonical(&**other)
    }
}

/// What the box holds.
impl<T: CanonicalRecordData> CanonicalRecordData for Box<T> {
    ghost canonical = { λ v. T.canonical v.value };

    ghost rank = { λ v. T.rank v.value };

    ghost is_proper = { λ v. T.is_proper v.value };

    ghost as_long = { λ v. T.as_long v.value };

    fn build_canonical_at(&self, bytes: &mut [u8], start: usize) -> Result<usize, TruncationError> {
        (**self).build_canonical_at(bytes, start)
    }

    fn cmp_canonical(&self, other: &Self) -> Ordering {
        (**self).cmp_canonical(&**other)
    }
}

/// What the pointer leads to.
impl<T: CanonicalRecordData> CanonicalRecordData for Rc<T> {
    ghost canonical = { λ v. T.canonical v.value };

    ghost rank = { λ v. T.rank v.value };

    ghost is_proper = { λ v. T.is_proper v.value };

    ghost as_long = { λ v. T.as_long v.value };

    fn build_canonical_at(&self, bytes: &mut [u8], start: usize) -> Result<usize, TruncationError> {
        (**self).build_canonical_at(bytes, start)
    }

    fn cmp_canonical(&self, other: &Self) -> Ordering {
        (**self).cmp_canonical(&**other)
    }
}
