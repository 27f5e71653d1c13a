//! One bit of a number, changed.

ghost use Rattle.std.specs.Prelude.{◌≡◌, ◌≢◌, ◌<◌, ℕ, if◌then◌else◌};
ghost use Rattle.std.specs.Int.{bit_at};

use crate::number16::U16;

/// The octet with one bit as given, at a place that is counted from the lowest bit, which is 0. Every other
/// bit stays.
pub fn octet_with_bit(octet: u8, place: u32, value: bool) -> u8
    requires { place < 8 }
    ensures set { bit_at result place ≡ (if value then 1 else 0) }
    ensures others { (i : ℕ) → i ≢ place → bit_at result i ≡ bit_at octet i }
{
    if value {
        octet | 1 << place
    } else {
        octet & !(1 << place)
    }
}

impl U16 {
    /// The number with one bit as given, at a place that is counted from the lowest bit, which is 0. Every
    /// other bit stays.
    pub fn with_bit(self, place: u32, value: bool) -> U16
        requires { place < 16 }
        ensures set { bit_at result.value place ≡ (if value then 1 else 0) }
        ensures others { (i : ℕ) → i ≢ place → bit_at result.value i ≡ bit_at self.value i }
    {
        if value {
            U16::new(self.value | 1 << place)
        } else {
            U16::new(self.value & !(1 << place))
        }
    }
}
