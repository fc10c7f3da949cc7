// Reductions: one number from all lanes of a vector.
ghost use Rattle.std.specs.Prelude.{◌≡◌, cond};
ghost use Rattle.standard.specs.Vector.{any_true, all_true, bitmask};
ghost use Rattle.simd.specs.Number.{number};

use crate::V128;
use lane_integer::compare::sign;

impl V128 {
    // The Rust's test of the number `as_u128` becomes one of two halves.
    pub fn v128_any_true(self) -> bool
        ensures { cond result 1 0 ≡ any_true (number self) }
    {
        if self.lo == 0 { self.hi != 0 } else { true }
    }

    // No lane is zero where no comparison with zero holds.
    pub fn i8x16_all_true(self) -> bool
        ensures { cond result 1 0 ≡ all_true 8 (number self) }
    {
        !self.i8x16_eq(V128 { lo: 0, hi: 0 }).v128_any_true()
    }

    pub fn i16x8_all_true(self) -> bool
        ensures { cond result 1 0 ≡ all_true 16 (number self) }
    {
        !self.i16x8_eq(V128 { lo: 0, hi: 0 }).v128_any_true()
    }

    pub fn i32x4_all_true(self) -> bool
        ensures { cond result 1 0 ≡ all_true 32 (number self) }
    {
        !self.i32x4_eq(V128 { lo: 0, hi: 0 }).v128_any_true()
    }

    pub fn i64x2_all_true(self) -> bool
        ensures { cond result 1 0 ≡ all_true 64 (number self) }
    {
        (self.lo != 0) & (self.hi != 0)
    }

    // From the top lane down, so that lane 0 ends in bit 0.
    pub fn i8x16_bitmask(self) -> u32
        ensures { result ≡ bitmask 8 (number self) }
    {
        let a = self.lanes8();
        let mut mask: u32 = 0;
        let mut i = 16;
        while 0 < i {
            i -= 1;
            mask = 2 * mask + (sign(a[i]) as u32);
        }
        mask
    }

    // From the top lane down, so that lane 0 ends in bit 0.
    pub fn i16x8_bitmask(self) -> u32
        ensures { result ≡ bitmask 16 (number self) }
    {
        let a = self.lanes16();
        let mut mask: u32 = 0;
        let mut i = 8;
        while 0 < i {
            i -= 1;
            mask = 2 * mask + (sign(a[i]) as u32);
        }
        mask
    }

    // From the top lane down, so that lane 0 ends in bit 0.
    pub fn i32x4_bitmask(self) -> u32
        ensures { result ≡ bitmask 32 (number self) }
    {
        let a = self.lanes32();
        let mut mask: u32 = 0;
        let mut i = 4;
        while 0 < i {
            i -= 1;
            mask = 2 * mask + (sign(a[i]) as u32);
        }
        mask
    }

    pub fn i64x2_bitmask(self) -> u32
        ensures { result ≡ bitmask 64 (number self) }
    {
        (sign(self.lo) as u32) + 2 * (sign(self.hi) as u32)
    }
}
