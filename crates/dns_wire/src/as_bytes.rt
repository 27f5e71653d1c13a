//! Values with their octets at hand.

ghost use Rattle.std.specs.Prelude.{◌≡◌};

use crate::build::BuildBytes;

/// A type whose values hold the octets that they are written as.
pub trait AsBytes: BuildBytes {
    /// The value's octets: those that `build_bytes` writes.
    fn as_bytes(&self) -> &[u8]
        ensures { result.now ≡ Self.octets self.now };
}
