//! Writing values as octets.

ghost use Rattle.std.specs.Prelude.{◌≡◌, ℕ, ◌+◌, ◌≤◌, ◌<◌, ◌^◌, List, [], ◌∷◌, ◌++◌, length, take, drop, IfOk, OnOk, OnErr, All, ⊤};
ghost use Rattle.std.specs.List.{flat_map};
ghost use Rattle.std.specs.Borrow.{sem};
ghost use Rattle.dns_wire.specs.Building.{Builds, LendsRest};

use crate::error::TruncationError;

/// A type whose values are written as octets.
pub trait BuildBytes {
    /// The value's octets.
    ghost octets: { Self → List ℕ };

    /// All its prefixed data fit their prefixes.
    ghost fits: { Self → Type 0 } = { λ _. ⊤ };

    /// Writes the value at a place of the buffer, and gives the place where it ends. It is accepted
    /// exactly if the prefixed data fit and the octets are at most those from `start` on.
    /// After `TruncationError` the octets before `start` are as before.
    fn build_at(&self, bytes: &mut [u8], start: usize) -> Result<usize, TruncationError>
        requires { start ≤ length bytes.old }
        ensures { Builds (fits self.now) (octets self.now) bytes.old start bytes.new result };

    /// The number of octets that an accepted call writes.
    fn built_bytes_size(&self) -> usize
        requires { length (octets self.now) < 2 ^ 64 }
        ensures { result ≡ length (octets self.now) };

    /// Writes the values one after another at a place of the buffer, and gives the place where they end.
    /// After `TruncationError` the octets before `start` are as before.
    fn build_all_at(
        values: &[Self],
        bytes: &mut [u8],
        start: usize,
    ) -> Result<usize, TruncationError>
    where
        Self: Sized,
        requires { start ≤ length bytes.old }
        ensures { Builds (All fits values.now) (flat_map octets values.now) bytes.old start bytes.new result }
    {
        let mut end = start;
        for value in values {
            end = value.build_at(bytes, end)?;
        }
        Ok(end)
    }

    /// Writes the value's octets to the beginning of the buffer. What is after them is borrowed back as it
    /// was. `TruncationError` comes exactly if the value does not fit; what the buffer holds then is
    /// unspecified.
    final fn build_bytes<'b>(&self, bytes: &'b mut [u8]) -> Result<&'b mut [u8], TruncationError>
        ensures* written { sem 𝓛 (LendsRest bytes.entry result (octets self.now)) }
        ensures rest { IfOk result (λ rest. rest.now ≡ drop (length (octets self.now)) bytes.old) }
        ensures accepted { OnOk result (fits self.now × (length (octets self.now) ≤ length bytes.old)) }
        ensures refused { OnErr result (fits self.now → length bytes.old < length (octets self.now)) }
    {
        match self.build_at(bytes, 0) {
            Ok(end) => Ok(&mut bytes[end..]),
            Err(error) => Err(error),
        }
    }
}

/// Writes the octets at a place of the buffer, if they are at most those from `start` on, and gives
/// the place where they end.
pub fn put(octets: &[u8], bytes: &mut [u8], start: usize) -> Result<usize, TruncationError>
    requires { start ≤ length bytes.old }
    ensures { Builds ⊤ octets.now bytes.old start bytes.new result }
{
    if bytes.len() - start < octets.len() {
        return Err(TruncationError);
    }
    let end = start + octets.len();
    bytes[start..end].copy_from_slice(octets);
    Ok(end)
}

/// Copies the octets to a place of the buffer.
pub fn copy_at(octets: &[u8], buffer: &mut [u8], at: usize)
    requires { at + length octets.now ≤ length buffer.old }
    ensures exact { buffer.new ≡ take at buffer.old ++ (octets.now ++ drop (at + length octets.now) buffer.old) }
    ensures prefix { take (at + length octets.now) buffer.new ≡ take at buffer.old ++ octets.now }
{
    buffer[at..at + octets.len()].copy_from_slice(octets);
}

/// One octet.
impl BuildBytes for u8 {
    ghost octets = { λ v. v ∷ [] };

    fn build_at(&self, bytes: &mut [u8], start: usize) -> Result<usize, TruncationError> {
        put(&[*self], bytes, start)
    }

    fn built_bytes_size(&self) -> usize
        ensures { result ≡ 1 }
    {
        1
    }

    /// Writes all the octets by one copy.
    fn build_all_at(
        values: &[u8],
        bytes: &mut [u8],
        start: usize,
    ) -> Result<usize, TruncationError> {
        put(values, bytes, start)
    }
}
