// Shifts, the count taken modulo the lane width.
ghost use Rattle.std.specs.Prelude.{◌≡◌};
ghost use Rattle.standard.specs.Integer.{ishl, ishr_u, ishr_s};
ghost use Rattle.standard.specs.Lanes.{unary};
ghost use Rattle.simd.specs.Number.{number};

use crate::V128;
use lane_integer::Lane;

impl V128 {
    pub fn i8x16_shl(self, count: u32) -> V128
        ensures { number result ≡ unary 8 (ishl 8 count) (number self) }
    {
        self.unary(|a: u8| a.shl(count))
    }

    pub fn i16x8_shl(self, count: u32) -> V128
        ensures { number result ≡ unary 16 (ishl 16 count) (number self) }
    {
        self.unary(|a: u16| a.shl(count))
    }

    pub fn i32x4_shl(self, count: u32) -> V128
        ensures { number result ≡ unary 32 (ishl 32 count) (number self) }
    {
        self.unary(|a: u32| a.shl(count))
    }

    pub fn i64x2_shl(self, count: u32) -> V128
        ensures { number result ≡ unary 64 (ishl 64 count) (number self) }
    {
        self.unary(|a: u64| a.shl(count))
    }

    pub fn i8x16_shr_s(self, count: u32) -> V128
        ensures { number result ≡ unary 8 (ishr_s 8 count) (number self) }
    {
        self.unary(|a: u8| a.shr_s(count))
    }

    pub fn i16x8_shr_s(self, count: u32) -> V128
        ensures { number result ≡ unary 16 (ishr_s 16 count) (number self) }
    {
        self.unary(|a: u16| a.shr_s(count))
    }

    pub fn i32x4_shr_s(self, count: u32) -> V128
        ensures { number result ≡ unary 32 (ishr_s 32 count) (number self) }
    {
        self.unary(|a: u32| a.shr_s(count))
    }

    pub fn i64x2_shr_s(self, count: u32) -> V128
        ensures { number result ≡ unary 64 (ishr_s 64 count) (number self) }
    {
        self.unary(|a: u64| a.shr_s(count))
    }

    pub fn i8x16_shr_u(self, count: u32) -> V128
        ensures { number result ≡ unary 8 (ishr_u 8 count) (number self) }
    {
        self.unary(|a: u8| a.shr_u(count))
    }

    pub fn i16x8_shr_u(self, count: u32) -> V128
        ensures { number result ≡ unary 16 (ishr_u 16 count) (number self) }
    {
        self.unary(|a: u16| a.shr_u(count))
    }

    pub fn i32x4_shr_u(self, count: u32) -> V128
        ensures { number result ≡ unary 32 (ishr_u 32 count) (number self) }
    {
        self.unary(|a: u32| a.shr_u(count))
    }

    pub fn i64x2_shr_u(self, count: u32) -> V128
        ensures { number result ≡ unary 64 (ishr_u 64 count) (number self) }
    {
        self.unary(|a: u64| a.shr_u(count))
    }
}
