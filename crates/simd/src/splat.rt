// Splat: every lane is the scalar.
ghost use Rattle.std.specs.Prelude.{◌≡◌};
ghost use Rattle.standard.specs.Integer.{modulo};
ghost use Rattle.standard.specs.Lanes.{splat};
ghost use Rattle.lane_float.specs.Scalar.{f32_bits, f64_bits};
ghost use Rattle.simd.specs.Number.{number};

use crate::{Lanes, V128};
use lane_float::{F32, F64};
use lane_integer::Lane;

impl V128 {
    pub fn i64x2_splat(value: i64) -> V128
        ensures { number result ≡ splat 64 (modulo 64 value) }
    {
        u64::splat(u64::of_signed(value))
    }

    pub fn i32x4_splat(value: i32) -> V128
        ensures { number result ≡ splat 32 (modulo 32 value) }
    {
        u32::splat(u32::of_signed(value))
    }

    pub fn i16x8_splat(value: i16) -> V128
        ensures { number result ≡ splat 16 (modulo 16 value) }
    {
        u16::splat(u16::of_signed(value))
    }

    pub fn i8x16_splat(value: i8) -> V128
        ensures { number result ≡ splat 8 (modulo 8 value) }
    {
        u8::splat(u8::of_signed(value))
    }

    pub fn f32x4_splat(value: F32) -> V128
        ensures { number result ≡ splat 32 (f32_bits value) }
    {
        u32::splat(value.to_bits())
    }

    pub fn f64x2_splat(value: F64) -> V128
        ensures { number result ≡ splat 64 (f64_bits value) }
    {
        u64::splat(value.to_bits())
    }
}
