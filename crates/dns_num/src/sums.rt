//! Sums and differences of wire numbers, with one another and with plain numbers.

ghost use Rattle.std.specs.Prelude.{◌≡◌, ◌+◌, ◌-◌, ◌<◌, ◌≤◌, ◌^◌};

use crate::number16::U16;
use crate::number32::U32;
use crate::number64::U64;
use std::ops::{Add, AddAssign, Sub, SubAssign};

impl Add for U16 {
    type Output = U16;

    ghost can_add = { λ a b. a.value + b.value < 2 ^ 16 };

    ghost add_gives = { λ a b number. number.value ≡ a.value + b.value };

    /// The sum, if it fits.
    fn add(self, other: U16) -> U16 {
        U16::new(self.value + other.value)
    }
}

impl Add<u16> for U16 {
    type Output = U16;

    ghost can_add = { λ a b. a.value + b < 2 ^ 16 };

    ghost add_gives = { λ a b number. number.value ≡ a.value + b };

    /// The sum, if it fits.
    fn add(self, other: u16) -> U16 {
        U16::new(self.value + other)
    }
}

impl AddAssign for U16 {
    ghost can_add_assign = { λ a b. a.value + b.value < 2 ^ 16 };

    ghost add_assign_gives = { λ a b number. number.value ≡ a.value + b.value };

    fn add_assign(&mut self, other: U16) {
        self.value += other.value;
    }
}

impl AddAssign<u16> for U16 {
    ghost can_add_assign = { λ a b. a.value + b < 2 ^ 16 };

    ghost add_assign_gives = { λ a b number. number.value ≡ a.value + b };

    fn add_assign(&mut self, other: u16) {
        self.value += other;
    }
}

impl Sub for U16 {
    type Output = U16;

    ghost can_sub = { λ a b. b.value ≤ a.value };

    ghost sub_gives = { λ a b number. number.value ≡ a.value - b.value };

    /// The difference, if it is not negative.
    fn sub(self, other: U16) -> U16 {
        U16::new(self.value - other.value)
    }
}

impl Sub<u16> for U16 {
    type Output = U16;

    ghost can_sub = { λ a b. b ≤ a.value };

    ghost sub_gives = { λ a b number. number.value ≡ a.value - b };

    /// The difference, if it is not negative.
    fn sub(self, other: u16) -> U16 {
        U16::new(self.value - other)
    }
}

impl SubAssign for U16 {
    ghost can_sub_assign = { λ a b. b.value ≤ a.value };

    ghost sub_assign_gives = { λ a b number. number.value ≡ a.value - b.value };

    fn sub_assign(&mut self, other: U16) {
        self.value -= other.value;
    }
}

impl SubAssign<u16> for U16 {
    ghost can_sub_assign = { λ a b. b ≤ a.value };

    ghost sub_assign_gives = { λ a b number. number.value ≡ a.value - b };

    fn sub_assign(&mut self, other: u16) {
        self.value -= other;
    }
}

impl Add for U32 {
    type Output = U32;

    ghost can_add = { λ a b. a.value + b.value < 2 ^ 32 };

    ghost add_gives = { λ a b number. number.value ≡ a.value + b.value };

    /// The sum, if it fits.
    fn add(self, other: U32) -> U32 {
        U32::new(self.value + other.value)
    }
}

impl Add<u32> for U32 {
    type Output = U32;

    ghost can_add = { λ a b. a.value + b < 2 ^ 32 };

    ghost add_gives = { λ a b number. number.value ≡ a.value + b };

    /// The sum, if it fits.
    fn add(self, other: u32) -> U32 {
        U32::new(self.value + other)
    }
}

impl AddAssign for U32 {
    ghost can_add_assign = { λ a b. a.value + b.value < 2 ^ 32 };

    ghost add_assign_gives = { λ a b number. number.value ≡ a.value + b.value };

    fn add_assign(&mut self, other: U32) {
        self.value += other.value;
    }
}

impl AddAssign<u32> for U32 {
    ghost can_add_assign = { λ a b. a.value + b < 2 ^ 32 };

    ghost add_assign_gives = { λ a b number. number.value ≡ a.value + b };

    fn add_assign(&mut self, other: u32) {
        self.value += other;
    }
}

impl Sub for U32 {
    type Output = U32;

    ghost can_sub = { λ a b. b.value ≤ a.value };

    ghost sub_gives = { λ a b number. number.value ≡ a.value - b.value };

    /// The difference, if it is not negative.
    fn sub(self, other: U32) -> U32 {
        U32::new(self.value - other.value)
    }
}

impl Sub<u32> for U32 {
    type Output = U32;

    ghost can_sub = { λ a b. b ≤ a.value };

    ghost sub_gives = { λ a b number. number.value ≡ a.value - b };

    /// The difference, if it is not negative.
    fn sub(self, other: u32) -> U32 {
        U32::new(self.value - other)
    }
}

impl SubAssign for U32 {
    ghost can_sub_assign = { λ a b. b.value ≤ a.value };

    ghost sub_assign_gives = { λ a b number. number.value ≡ a.value - b.value };

    fn sub_assign(&mut self, other: U32) {
        self.value -= other.value;
    }
}

impl SubAssign<u32> for U32 {
    ghost can_sub_assign = { λ a b. b ≤ a.value };

    ghost sub_assign_gives = { λ a b number. number.value ≡ a.value - b };

    fn sub_assign(&mut self, other: u32) {
        self.value -= other;
    }
}

impl Add for U64 {
    type Output = U64;

    ghost can_add = { λ a b. a.value + b.value < 2 ^ 64 };

    ghost add_gives = { λ a b number. number.value ≡ a.value + b.value };

    /// The sum, if it fits.
    fn add(self, other: U64) -> U64 {
        U64::new(self.value + other.value)
    }
}

impl Add<u64> for U64 {
    type Output = U64;

    ghost can_add = { λ a b. a.value + b < 2 ^ 64 };

    ghost add_gives = { λ a b number. number.value ≡ a.value + b };

    /// The sum, if it fits.
    fn add(self, other: u64) -> U64 {
        U64::new(self.value + other)
    }
}

impl AddAssign for U64 {
    ghost can_add_assign = { λ a b. a.value + b.value < 2 ^ 64 };

    ghost add_assign_gives = { λ a b number. number.value ≡ a.value + b.value };

    fn add_assign(&mut self, other: U64) {
        self.value += other.value;
    }
}

impl AddAssign<u64> for U64 {
    ghost can_add_assign = { λ a b. a.value + b < 2 ^ 64 };

    ghost add_assign_gives = { λ a b number. number.value ≡ a.value + b };

    fn add_assign(&mut self, other: u64) {
        self.value += other;
    }
}

impl Sub for U64 {
    type Output = U64;

    ghost can_sub = { λ a b. b.value ≤ a.value };

    ghost sub_gives = { λ a b number. number.value ≡ a.value - b.value };

    /// The difference, if it is not negative.
    fn sub(self, other: U64) -> U64 {
        U64::new(self.value - other.value)
    }
}

impl Sub<u64> for U64 {
    type Output = U64;

    ghost can_sub = { λ a b. b ≤ a.value };

    ghost sub_gives = { λ a b number. number.value ≡ a.value - b };

    /// The difference, if it is not negative.
    fn sub(self, other: u64) -> U64 {
        U64::new(self.value - other)
    }
}

impl SubAssign for U64 {
    ghost can_sub_assign = { λ a b. b.value ≤ a.value };

    ghost sub_assign_gives = { λ a b number. number.value ≡ a.value - b.value };

    fn sub_assign(&mut self, other: U64) {
        self.value -= other.value;
    }
}

impl SubAssign<u64> for U64 {
    ghost can_sub_assign = { λ a b. b ≤ a.value };

    ghost sub_assign_gives = { λ a b number. number.value ≡ a.value - b };

    fn sub_assign(&mut self, other: u64) {
        self.value -= other;
    }
}
