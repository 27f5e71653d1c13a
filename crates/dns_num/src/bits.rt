//! Operations on the bits of wire numbers, with one another and with plain numbers.

ghost use Rattle.std.specs.Prelude.{◌≡◌, bit_and, bit_or, bit_xor};
ghost use Rattle.std.specs.Int.{w16, w32, w64, bit_not};

use crate::number16::U16;
use crate::number32::U32;
use crate::number64::U64;
use std::ops::{BitAnd, BitAndAssign, BitOr, BitOrAssign, BitXor, BitXorAssign, Not};

impl BitAnd for U16 {
    type Output = U16;

    ghost bitand_gives = { λ a b number. number.value ≡ bit_and a.value b.value };

    fn bitand(self, other: U16) -> U16 {
        U16::new(self.value & other.value)
    }
}

impl BitAnd<u16> for U16 {
    type Output = U16;

    ghost bitand_gives = { λ a b number. number.value ≡ bit_and a.value b };

    fn bitand(self, other: u16) -> U16 {
        U16::new(self.value & other)
    }
}

impl BitAndAssign for U16 {
    ghost bitand_assign_gives = { λ a b number. number.value ≡ bit_and a.value b.value };

    fn bitand_assign(&mut self, other: U16) {
        self.value &= other.value;
    }
}

impl BitAndAssign<u16> for U16 {
    ghost bitand_assign_gives = { λ a b number. number.value ≡ bit_and a.value b };

    fn bitand_assign(&mut self, other: u16) {
        self.value &= other;
    }
}

impl BitOr for U16 {
    type Output = U16;

    ghost bitor_gives = { λ a b number. number.value ≡ bit_or a.value b.value };

    fn bitor(self, other: U16) -> U16 {
        U16::new(self.value | other.value)
    }
}

impl BitOr<u16> for U16 {
    type Output = U16;

    ghost bitor_gives = { λ a b number. number.value ≡ bit_or a.value b };

    fn bitor(self, other: u16) -> U16 {
        U16::new(self.value | other)
    }
}

impl BitOrAssign for U16 {
    ghost bitor_assign_gives = { λ a b number. number.value ≡ bit_or a.value b.value };

    fn bitor_assign(&mut self, other: U16) {
        self.value |= other.value;
    }
}

impl BitOrAssign<u16> for U16 {
    ghost bitor_assign_gives = { λ a b number. number.value ≡ bit_or a.value b };

    fn bitor_assign(&mut self, other: u16) {
        self.value |= other;
    }
}

impl BitXor for U16 {
    type Output = U16;

    ghost bitxor_gives = { λ a b number. number.value ≡ bit_xor a.value b.value };

    fn bitxor(self, other: U16) -> U16 {
        U16::new(self.value ^ other.value)
    }
}

impl BitXor<u16> for U16 {
    type Output = U16;

    ghost bitxor_gives = { λ a b number. number.value ≡ bit_xor a.value b };

    fn bitxor(self, other: u16) -> U16 {
        U16::new(self.value ^ other)
    }
}

impl BitXorAssign for U16 {
    ghost bitxor_assign_gives = { λ a b number. number.value ≡ bit_xor a.value b.value };

    fn bitxor_assign(&mut self, other: U16) {
        self.value ^= other.value;
    }
}

impl Not for U16 {
    type Output = U16;

    ghost not_gives = { λ a number. number.value ≡ bit_not w16 a.value };

    fn not(self) -> U16 {
        U16::new(!self.value)
    }
}

impl BitAnd for U32 {
    type Output = U32;

    ghost bitand_gives = { λ a b number. number.value ≡ bit_and a.value b.value };

    fn bitand(self, other: U32) -> U32 {
        U32::new(self.value & other.value)
    }
}

impl BitAnd<u32> for U32 {
    type Output = U32;

    ghost bitand_gives = { λ a b number. number.value ≡ bit_and a.value b };

    fn bitand(self, other: u32) -> U32 {
        U32::new(self.value & other)
    }
}

impl BitAndAssign for U32 {
    ghost bitand_assign_gives = { λ a b number. number.value ≡ bit_and a.value b.value };

    fn bitand_assign(&mut self, other: U32) {
        self.value &= other.value;
    }
}

impl BitAndAssign<u32> for U32 {
    ghost bitand_assign_gives = { λ a b number. number.value ≡ bit_and a.value b };

    fn bitand_assign(&mut self, other: u32) {
        self.value &= other;
    }
}

impl BitOr for U32 {
    type Output = U32;

    ghost bitor_gives = { λ a b number. number.value ≡ bit_or a.value b.value };

    fn bitor(self, other: U32) -> U32 {
        U32::new(self.value | other.value)
    }
}

impl BitOr<u32> for U32 {
    type Output = U32;

    ghost bitor_gives = { λ a b number. number.value ≡ bit_or a.value b };

    fn bitor(self, other: u32) -> U32 {
        U32::new(self.value | other)
    }
}

impl BitOrAssign for U32 {
    ghost bitor_assign_gives = { λ a b number. number.value ≡ bit_or a.value b.value };

    fn bitor_assign(&mut self, other: U32) {
        self.value |= other.value;
    }
}

impl BitOrAssign<u32> for U32 {
    ghost bitor_assign_gives = { λ a b number. number.value ≡ bit_or a.value b };

    fn bitor_assign(&mut self, other: u32) {
        self.value |= other;
    }
}

impl BitXor for U32 {
    type Output = U32;

    ghost bitxor_gives = { λ a b number. number.value ≡ bit_xor a.value b.value };

    fn bitxor(self, other: U32) -> U32 {
        U32::new(self.value ^ other.value)
    }
}

impl BitXor<u32> for U32 {
    type Output = U32;

    ghost bitxor_gives = { λ a b number. number.value ≡ bit_xor a.value b };

    fn bitxor(self, other: u32) -> U32 {
        U32::new(self.value ^ other)
    }
}

impl BitXorAssign for U32 {
    ghost bitxor_assign_gives = { λ a b number. number.value ≡ bit_xor a.value b.value };

    fn bitxor_assign(&mut self, other: U32) {
        self.value ^= other.value;
    }
}

impl Not for U32 {
    type Output = U32;

    ghost not_gives = { λ a number. number.value ≡ bit_not w32 a.value };

    fn not(self) -> U32 {
        U32::new(!self.value)
    }
}

impl BitAnd for U64 {
    type Output = U64;

    ghost bitand_gives = { λ a b number. number.value ≡ bit_and a.value b.value };

    fn bitand(self, other: U64) -> U64 {
        U64::new(self.value & other.value)
    }
}

impl BitAnd<u64> for U64 {
    type Output = U64;

    ghost bitand_gives = { λ a b number. number.value ≡ bit_and a.value b };

    fn bitand(self, other: u64) -> U64 {
        U64::new(self.value & other)
    }
}

impl BitAndAssign for U64 {
    ghost bitand_assign_gives = { λ a b number. number.value ≡ bit_and a.value b.value };

    fn bitand_assign(&mut self, other: U64) {
        self.value &= other.value;
    }
}

impl BitAndAssign<u64> for U64 {
    ghost bitand_assign_gives = { λ a b number. number.value ≡ bit_and a.value b };

    fn bitand_assign(&mut self, other: u64) {
        self.value &= other;
    }
}

impl BitOr for U64 {
    type Output = U64;

    ghost bitor_gives = { λ a b number. number.value ≡ bit_or a.value b.value };

    fn bitor(self, other: U64) -> U64 {
        U64::new(self.value | other.value)
    }
}

impl BitOr<u64> for U64 {
    type Output = U64;

    ghost bitor_gives = { λ a b number. number.value ≡ bit_or a.value b };

    fn bitor(self, other: u64) -> U64 {
        U64::new(self.value | other)
    }
}

impl BitOrAssign for U64 {
    ghost bitor_assign_gives = { λ a b number. number.value ≡ bit_or a.value b.value };

    fn bitor_assign(&mut self, other: U64) {
        self.value |= other.value;
    }
}

impl BitOrAssign<u64> for U64 {
    ghost bitor_assign_gives = { λ a b number. number.value ≡ bit_or a.value b };

    fn bitor_assign(&mut self, other: u64) {
        self.value |= other;
    }
}

impl BitXor for U64 {
    type Output = U64;

    ghost bitxor_gives = { λ a b number. number.value ≡ bit_xor a.value b.value };

    fn bitxor(self, other: U64) -> U64 {
        U64::new(self.value ^ other.value)
    }
}

impl BitXor<u64> for U64 {
    type Output = U64;

    ghost bitxor_gives = { λ a b number. number.value ≡ bit_xor a.value b };

    fn bitxor(self, other: u64) -> U64 {
        U64::new(self.value ^ other)
    }
}

impl BitXorAssign for U64 {
    ghost bitxor_assign_gives = { λ a b number. number.value ≡ bit_xor a.value b.value };

    fn bitxor_assign(&mut self, other: U64) {
        self.value ^= other.value;
    }
}

impl Not for U64 {
    type Output = U64;

    ghost not_gives = { λ a number. number.value ≡ bit_not w64 a.value };

    fn not(self) -> U64 {
        U64::new(!self.value)
    }
}
