// Lane by lane integer arithmetic.
ghost use Rattle.std.specs.Prelude.{◌≡◌};
ghost use Rattle.standard.specs.Integer.{iadd, isub, imul, ineg, iabs, ipopcnt, imin_u, imin_s, imax_u, imax_s, iadd_sat_u, iadd_sat_s, isub_sat_u, isub_sat_s};
ghost use Rattle.standard.specs.Integer.{iavgr_u, iq15mulrsat_s};
ghost use Rattle.standard.specs.Lanes.{unary, binary};
ghost use Rattle.simd.specs.Number.{number};

use crate::V128;
use lane_integer::Lane;
use lane_integer::arithmetic::{abs, neg, popcnt};
use lane_integer::choose::{max_s, max_u, min_s, min_u};
use lane_wide::{Narrow, q15mulr_sat_s};

impl V128 {
    pub fn i64x2_add(self, rhs: V128) -> V128
        ensures { number result ≡ binary 64 (iadd 64) (number self) (number rhs) }
    {
        self.binary(rhs, |a: u64, b| a.add(b))
    }

    pub fn i32x4_add(self, rhs: V128) -> V128
        ensures { number result ≡ binary 32 (iadd 32) (number self) (number rhs) }
    {
        self.binary(rhs, |a: u32, b| a.add(b))
    }

    pub fn i16x8_add(self, rhs: V128) -> V128
        ensures { number result ≡ binary 16 (iadd 16) (number self) (number rhs) }
    {
        self.binary(rhs, |a: u16, b| a.add(b))
    }

    pub fn i8x16_add(self, rhs: V128) -> V128
        ensures { number result ≡ binary 8 (iadd 8) (number self) (number rhs) }
    {
        self.binary(rhs, |a: u8, b| a.add(b))
    }

    pub fn i64x2_sub(self, rhs: V128) -> V128
        ensures { number result ≡ binary 64 (isub 64) (number self) (number rhs) }
    {
        self.binary(rhs, |a: u64, b| a.sub(b))
    }

    pub fn i32x4_sub(self, rhs: V128) -> V128
        ensures { number result ≡ binary 32 (isub 32) (number self) (number rhs) }
    {
        self.binary(rhs, |a: u32, b| a.sub(b))
    }

    pub fn i16x8_sub(self, rhs: V128) -> V128
        ensures { number result ≡ binary 16 (isub 16) (number self) (number rhs) }
    {
        self.binary(rhs, |a: u16, b| a.sub(b))
    }

    pub fn i8x16_sub(self, rhs: V128) -> V128
        ensures { number result ≡ binary 8 (isub 8) (number self) (number rhs) }
    {
        self.binary(rhs, |a: u8, b| a.sub(b))
    }

    pub fn i64x2_mul(self, rhs: V128) -> V128
        ensures { number result ≡ binary 64 (imul 64) (number self) (number rhs) }
    {
        self.binary(rhs, |a: u64, b| a.mul(b))
    }

    pub fn i32x4_mul(self, rhs: V128) -> V128
        ensures { number result ≡ binary 32 (imul 32) (number self) (number rhs) }
    {
        self.binary(rhs, |a: u32, b| a.mul(b))
    }

    pub fn i16x8_mul(self, rhs: V128) -> V128
        ensures { number result ≡ binary 16 (imul 16) (number self) (number rhs) }
    {
        self.binary(rhs, |a: u16, b| a.mul(b))
    }

    // The Rust's, and not in the standard: the product modulo 256 (document 01, "Lane rules").
    pub fn i8x16_mul(self, rhs: V128) -> V128
        ensures { number result ≡ binary 8 (imul 8) (number self) (number rhs) }
    {
        self.binary(rhs, |a: u8, b| a.mul(b))
    }

    pub fn i8x16_add_sat_s(self, rhs: V128) -> V128
        ensures { number result ≡ binary 8 (iadd_sat_s 8) (number self) (number rhs) }
    {
        self.binary(rhs, |a: u8, b| a.add_sat_s(b))
    }

    pub fn i16x8_add_sat_s(self, rhs: V128) -> V128
        ensures { number result ≡ binary 16 (iadd_sat_s 16) (number self) (number rhs) }
    {
        self.binary(rhs, |a: u16, b| a.add_sat_s(b))
    }

    pub fn i8x16_add_sat_u(self, rhs: V128) -> V128
        ensures { number result ≡ binary 8 (iadd_sat_u 8) (number self) (number rhs) }
    {
        self.binary(rhs, |a: u8, b| a.add_sat_u(b))
    }

    pub fn i16x8_add_sat_u(self, rhs: V128) -> V128
        ensures { number result ≡ binary 16 (iadd_sat_u 16) (number self) (number rhs) }
    {
        self.binary(rhs, |a: u16, b| a.add_sat_u(b))
    }

    pub fn i8x16_sub_sat_s(self, rhs: V128) -> V128
        ensures { number result ≡ binary 8 (isub_sat_s 8) (number self) (number rhs) }
    {
        self.binary(rhs, |a: u8, b| a.sub_sat_s(b))
    }

    pub fn i16x8_sub_sat_s(self, rhs: V128) -> V128
        ensures { number result ≡ binary 16 (isub_sat_s 16) (number self) (number rhs) }
    {
        self.binary(rhs, |a: u16, b| a.sub_sat_s(b))
    }

    pub fn i8x16_sub_sat_u(self, rhs: V128) -> V128
        ensures { number result ≡ binary 8 (isub_sat_u 8) (number self) (number rhs) }
    {
        self.binary(rhs, |a: u8, b| a.sub_sat_u(b))
    }

    pub fn i16x8_sub_sat_u(self, rhs: V128) -> V128
        ensures { number result ≡ binary 16 (isub_sat_u 16) (number self) (number rhs) }
    {
        self.binary(rhs, |a: u16, b| a.sub_sat_u(b))
    }

    pub fn i16x8_q15mulr_sat_s(self, rhs: V128) -> V128
        ensures { number result ≡ binary 16 (iq15mulrsat_s 16) (number self) (number rhs) }
    {
        self.binary(rhs, |a: u16, b| q15mulr_sat_s(a, b))
    }

    pub fn i8x16_min_s(self, rhs: V128) -> V128
        ensures { number result ≡ binary 8 (imin_s 8) (number self) (number rhs) }
    {
        self.binary(rhs, |a: u8, b| min_s(a, b))
    }

    pub fn i16x8_min_s(self, rhs: V128) -> V128
        ensures { number result ≡ binary 16 (imin_s 16) (number self) (number rhs) }
    {
        self.binary(rhs, |a: u16, b| min_s(a, b))
    }

    pub fn i32x4_min_s(self, rhs: V128) -> V128
        ensures { number result ≡ binary 32 (imin_s 32) (number self) (number rhs) }
    {
        self.binary(rhs, |a: u32, b| min_s(a, b))
    }

    pub fn i8x16_min_u(self, rhs: V128) -> V128
        ensures { number result ≡ binary 8 (imin_u 8) (number self) (number rhs) }
    {
        self.binary(rhs, |a: u8, b| min_u(a, b))
    }

    pub fn i16x8_min_u(self, rhs: V128) -> V128
        ensures { number result ≡ binary 16 (imin_u 16) (number self) (number rhs) }
    {
        self.binary(rhs, |a: u16, b| min_u(a, b))
    }

    pub fn i32x4_min_u(self, rhs: V128) -> V128
        ensures { number result ≡ binary 32 (imin_u 32) (number self) (number rhs) }
    {
        self.binary(rhs, |a: u32, b| min_u(a, b))
    }

    pub fn i8x16_max_s(self, rhs: V128) -> V128
        ensures { number result ≡ binary 8 (imax_s 8) (number self) (number rhs) }
    {
        self.binary(rhs, |a: u8, b| max_s(a, b))
    }

    pub fn i16x8_max_s(self, rhs: V128) -> V128
        ensures { number result ≡ binary 16 (imax_s 16) (number self) (number rhs) }
    {
        self.binary(rhs, |a: u16, b| max_s(a, b))
    }

    pub fn i32x4_max_s(self, rhs: V128) -> V128
        ensures { number result ≡ binary 32 (imax_s 32) (number self) (number rhs) }
    {
        self.binary(rhs, |a: u32, b| max_s(a, b))
    }

    pub fn i8x16_max_u(self, rhs: V128) -> V128
        ensures { number result ≡ binary 8 (imax_u 8) (number self) (number rhs) }
    {
        self.binary(rhs, |a: u8, b| max_u(a, b))
    }

    pub fn i16x8_max_u(self, rhs: V128) -> V128
        ensures { number result ≡ binary 16 (imax_u 16) (number self) (number rhs) }
    {
        self.binary(rhs, |a: u16, b| max_u(a, b))
    }

    pub fn i32x4_max_u(self, rhs: V128) -> V128
        ensures { number result ≡ binary 32 (imax_u 32) (number self) (number rhs) }
    {
        self.binary(rhs, |a: u32, b| max_u(a, b))
    }

    pub fn i8x16_avgr_u(self, rhs: V128) -> V128
        ensures { number result ≡ binary 8 (iavgr_u 8) (number self) (number rhs) }
    {
        self.binary(rhs, |a: u8, b| a.avgr_u(b))
    }

    pub fn i16x8_avgr_u(self, rhs: V128) -> V128
        ensures { number result ≡ binary 16 (iavgr_u 16) (number self) (number rhs) }
    {
        self.binary(rhs, |a: u16, b| a.avgr_u(b))
    }

    pub fn i64x2_neg(self) -> V128
        ensures { number result ≡ unary 64 (ineg 64) (number self) }
    {
        self.unary(|a: u64| neg(a))
    }

    pub fn i32x4_neg(self) -> V128
        ensures { number result ≡ unary 32 (ineg 32) (number self) }
    {
        self.unary(|a: u32| neg(a))
    }

    pub fn i16x8_neg(self) -> V128
        ensures { number result ≡ unary 16 (ineg 16) (number self) }
    {
        self.unary(|a: u16| neg(a))
    }

    pub fn i8x16_neg(self) -> V128
        ensures { number result ≡ unary 8 (ineg 8) (number self) }
    {
        self.unary(|a: u8| neg(a))
    }

    pub fn i8x16_abs(self) -> V128
        ensures { number result ≡ unary 8 (iabs 8) (number self) }
    {
        self.unary(|a: u8| abs(a))
    }

    pub fn i16x8_abs(self) -> V128
        ensures { number result ≡ unary 16 (iabs 16) (number self) }
    {
        self.unary(|a: u16| abs(a))
    }

    pub fn i32x4_abs(self) -> V128
        ensures { number result ≡ unary 32 (iabs 32) (number self) }
    {
        self.unary(|a: u32| abs(a))
    }

    pub fn i64x2_abs(self) -> V128
        ensures { number result ≡ unary 64 (iabs 64) (number self) }
    {
        self.unary(|a: u64| abs(a))
    }

    pub fn i8x16_popcnt(self) -> V128
        ensures { number result ≡ unary 8 (ipopcnt 8) (number self) }
    {
        self.unary(|a: u8| popcnt(a))
    }
}
