// Lane by lane integer comparison: all ones or all zeros.
ghost use Rattle.std.specs.Prelude.{◌≡◌};
ghost use Rattle.standard.specs.Integer.{ieq, ine, ilt_u, igt_u, ile_u, ige_u, ilt_s, igt_s, ile_s, ige_s};
ghost use Rattle.standard.specs.Lanes.{binary};
ghost use Rattle.simd.specs.Number.{number};

use crate::V128;
use lane_integer::compare::*;

impl V128 {
    pub fn i8x16_eq(self, rhs: V128) -> V128
        ensures { number result ≡ binary 8 (ieq 8) (number self) (number rhs) }
    {
        self.binary(rhs, |a: u8, b| eq(a, b))
    }

    pub fn i16x8_eq(self, rhs: V128) -> V128
        ensures { number result ≡ binary 16 (ieq 16) (number self) (number rhs) }
    {
        self.binary(rhs, |a: u16, b| eq(a, b))
    }

    pub fn i32x4_eq(self, rhs: V128) -> V128
        ensures { number result ≡ binary 32 (ieq 32) (number self) (number rhs) }
    {
        self.binary(rhs, |a: u32, b| eq(a, b))
    }

    pub fn i64x2_eq(self, rhs: V128) -> V128
        ensures { number result ≡ binary 64 (ieq 64) (number self) (number rhs) }
    {
        self.binary(rhs, |a: u64, b| eq(a, b))
    }

    pub fn i8x16_ne(self, rhs: V128) -> V128
        ensures { number result ≡ binary 8 (ine 8) (number self) (number rhs) }
    {
        self.binary(rhs, |a: u8, b| ne(a, b))
    }

    pub fn i16x8_ne(self, rhs: V128) -> V128
        ensures { number result ≡ binary 16 (ine 16) (number self) (number rhs) }
    {
        self.binary(rhs, |a: u16, b| ne(a, b))
    }

    pub fn i32x4_ne(self, rhs: V128) -> V128
        ensures { number result ≡ binary 32 (ine 32) (number self) (number rhs) }
    {
        self.binary(rhs, |a: u32, b| ne(a, b))
    }

    pub fn i64x2_ne(self, rhs: V128) -> V128
        ensures { number result ≡ binary 64 (ine 64) (number self) (number rhs) }
    {
        self.binary(rhs, |a: u64, b| ne(a, b))
    }

    pub fn i8x16_lt_s(self, rhs: V128) -> V128
        ensures { number result ≡ binary 8 (ilt_s 8) (number self) (number rhs) }
    {
        self.binary(rhs, |a: u8, b| lt_s(a, b))
    }

    pub fn i8x16_lt_u(self, rhs: V128) -> V128
        ensures { number result ≡ binary 8 (ilt_u 8) (number self) (number rhs) }
    {
        self.binary(rhs, |a: u8, b| lt_u(a, b))
    }

    pub fn i16x8_lt_s(self, rhs: V128) -> V128
        ensures { number result ≡ binary 16 (ilt_s 16) (number self) (number rhs) }
    {
        self.binary(rhs, |a: u16, b| lt_s(a, b))
    }

    pub fn i16x8_lt_u(self, rhs: V128) -> V128
        ensures { number result ≡ binary 16 (ilt_u 16) (number self) (number rhs) }
    {
        self.binary(rhs, |a: u16, b| lt_u(a, b))
    }

    pub fn i32x4_lt_s(self, rhs: V128) -> V128
        ensures { number result ≡ binary 32 (ilt_s 32) (number self) (number rhs) }
    {
        self.binary(rhs, |a: u32, b| lt_s(a, b))
    }

    pub fn i32x4_lt_u(self, rhs: V128) -> V128
        ensures { number result ≡ binary 32 (ilt_u 32) (number self) (number rhs) }
    {
        self.binary(rhs, |a: u32, b| lt_u(a, b))
    }

    pub fn i64x2_lt_s(self, rhs: V128) -> V128
        ensures { number result ≡ binary 64 (ilt_s 64) (number self) (number rhs) }
    {
        self.binary(rhs, |a: u64, b| lt_s(a, b))
    }

    pub fn i8x16_le_s(self, rhs: V128) -> V128
        ensures { number result ≡ binary 8 (ile_s 8) (number self) (number rhs) }
    {
        self.binary(rhs, |a: u8, b| le_s(a, b))
    }

    pub fn i8x16_le_u(self, rhs: V128) -> V128
        ensures { number result ≡ binary 8 (ile_u 8) (number self) (number rhs) }
    {
        self.binary(rhs, |a: u8, b| le_u(a, b))
    }

    pub fn i16x8_le_s(self, rhs: V128) -> V128
        ensures { number result ≡ binary 16 (ile_s 16) (number self) (number rhs) }
    {
        self.binary(rhs, |a: u16, b| le_s(a, b))
    }

    pub fn i16x8_le_u(self, rhs: V128) -> V128
        ensures { number result ≡ binary 16 (ile_u 16) (number self) (number rhs) }
    {
        self.binary(rhs, |a: u16, b| le_u(a, b))
    }

    pub fn i32x4_le_s(self, rhs: V128) -> V128
        ensures { number result ≡ binary 32 (ile_s 32) (number self) (number rhs) }
    {
        self.binary(rhs, |a: u32, b| le_s(a, b))
    }

    pub fn i32x4_le_u(self, rhs: V128) -> V128
        ensures { number result ≡ binary 32 (ile_u 32) (number self) (number rhs) }
    {
        self.binary(rhs, |a: u32, b| le_u(a, b))
    }

    pub fn i64x2_le_s(self, rhs: V128) -> V128
        ensures { number result ≡ binary 64 (ile_s 64) (number self) (number rhs) }
    {
        self.binary(rhs, |a: u64, b| le_s(a, b))
    }

    pub fn i8x16_gt_s(self, rhs: V128) -> V128
        ensures { number result ≡ binary 8 (igt_s 8) (number self) (number rhs) }
    {
        self.binary(rhs, |a: u8, b| gt_s(a, b))
    }

    pub fn i8x16_gt_u(self, rhs: V128) -> V128
        ensures { number result ≡ binary 8 (igt_u 8) (number self) (number rhs) }
    {
        self.binary(rhs, |a: u8, b| gt_u(a, b))
    }

    pub fn i16x8_gt_s(self, rhs: V128) -> V128
        ensures { number result ≡ binary 16 (igt_s 16) (number self) (number rhs) }
    {
        self.binary(rhs, |a: u16, b| gt_s(a, b))
    }

    pub fn i16x8_gt_u(self, rhs: V128) -> V128
        ensures { number result ≡ binary 16 (igt_u 16) (number self) (number rhs) }
    {
        self.binary(rhs, |a: u16, b| gt_u(a, b))
    }

    pub fn i32x4_gt_s(self, rhs: V128) -> V128
        ensures { number result ≡ binary 32 (igt_s 32) (number self) (number rhs) }
    {
        self.binary(rhs, |a: u32, b| gt_s(a, b))
    }

    pub fn i32x4_gt_u(self, rhs: V128) -> V128
        ensures { number result ≡ binary 32 (igt_u 32) (number self) (number rhs) }
    {
        self.binary(rhs, |a: u32, b| gt_u(a, b))
    }

    pub fn i64x2_gt_s(self, rhs: V128) -> V128
        ensures { number result ≡ binary 64 (igt_s 64) (number self) (number rhs) }
    {
        self.binary(rhs, |a: u64, b| gt_s(a, b))
    }

    pub fn i8x16_ge_s(self, rhs: V128) -> V128
        ensures { number result ≡ binary 8 (ige_s 8) (number self) (number rhs) }
    {
        self.binary(rhs, |a: u8, b| ge_s(a, b))
    }

    pub fn i8x16_ge_u(self, rhs: V128) -> V128
        ensures { number result ≡ binary 8 (ige_u 8) (number self) (number rhs) }
    {
        self.binary(rhs, |a: u8, b| ge_u(a, b))
    }

    pub fn i16x8_ge_s(self, rhs: V128) -> V128
        ensures { number result ≡ binary 16 (ige_s 16) (number self) (number rhs) }
    {
        self.binary(rhs, |a: u16, b| ge_s(a, b))
    }

    pub fn i16x8_ge_u(self, rhs: V128) -> V128
        ensures { number result ≡ binary 16 (ige_u 16) (number self) (number rhs) }
    {
        self.binary(rhs, |a: u16, b| ge_u(a, b))
    }

    pub fn i32x4_ge_s(self, rhs: V128) -> V128
        ensures { number result ≡ binary 32 (ige_s 32) (number self) (number rhs) }
    {
        self.binary(rhs, |a: u32, b| ge_s(a, b))
    }

    pub fn i32x4_ge_u(self, rhs: V128) -> V128
        ensures { number result ≡ binary 32 (ige_u 32) (number self) (number rhs) }
    {
        self.binary(rhs, |a: u32, b| ge_u(a, b))
    }

    pub fn i64x2_ge_s(self, rhs: V128) -> V128
        ensures { number result ≡ binary 64 (ige_s 64) (number self) (number rhs) }
    {
        self.binary(rhs, |a: u64, b| ge_s(a, b))
    }
}
