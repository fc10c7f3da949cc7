// Reductions: one number from all lanes of a vector.
ghost use Rattle.simd.specs.Number.{number};
ghost use Rattle.std.specs.Prelude.{cond, ◌≡◌};
ghost use Rattle.standard.specs.Vector.{any_true, all_true, bitmask};

use simd::V128;

#[unsafe(no_mangle)]
pub extern "C" fn gatulefo_i8x16_all_true(v: V128) -> bool
    ensures { cond result 1 0 ≡ all_true 8 (number v) }
{
    v.i8x16_all_true()
}

#[unsafe(no_mangle)]
pub extern "C" fn gatulefo_i16x8_all_true(v: V128) -> bool
    ensures { cond result 1 0 ≡ all_true 16 (number v) }
{
    v.i16x8_all_true()
}

#[unsafe(no_mangle)]
pub extern "C" fn gatulefo_i32x4_all_true(v: V128) -> bool
    ensures { cond result 1 0 ≡ all_true 32 (number v) }
{
    v.i32x4_all_true()
}

#[unsafe(no_mangle)]
pub extern "C" fn gatulefo_i64x2_all_true(v: V128) -> bool
    ensures { cond result 1 0 ≡ all_true 64 (number v) }
{
    v.i64x2_all_true()
}

#[unsafe(no_mangle)]
pub extern "C" fn gatulefo_i8x16_bitmask(v: V128) -> u32
    ensures { result ≡ bitmask 8 (number v) }
{
    v.i8x16_bitmask()
}

#[unsafe(no_mangle)]
pub extern "C" fn gatulefo_i16x8_bitmask(v: V128) -> u32
    ensures { result ≡ bitmask 16 (number v) }
{
    v.i16x8_bitmask()
}

#[unsafe(no_mangle)]
pub extern "C" fn gatulefo_i32x4_bitmask(v: V128) -> u32
    ensures { result ≡ bitmask 32 (number v) }
{
    v.i32x4_bitmask()
}

#[unsafe(no_mangle)]
pub extern "C" fn gatulefo_i64x2_bitmask(v: V128) -> u32
    ensures { result ≡ bitmask 64 (number v) }
{
    v.i64x2_bitmask()
}

#[unsafe(no_mangle)]
pub extern "C" fn gatulefo_v128_any_true(v: V128) -> bool
    ensures { cond result 1 0 ≡ any_true (number v) }
{
    v.v128_any_true()
}
