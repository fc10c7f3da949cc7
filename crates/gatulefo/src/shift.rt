// Shifts, the count taken modulo the lane width.
ghost use Rattle.simd.specs.Number.{number};
ghost use Rattle.standard.specs.Integer.{ishl, ishr_u, ishr_s};
ghost use Rattle.standard.specs.Lanes.{unary};
ghost use Rattle.std.specs.Prelude.{◌≡◌};

use simd::V128;

#[unsafe(no_mangle)]
pub extern "C" fn gatulefo_i8x16_shl(v: V128, count: u32) -> V128
    ensures { number result ≡ unary 8 (ishl 8 count) (number v) }
{
    v.i8x16_shl(count)
}

#[unsafe(no_mangle)]
pub extern "C" fn gatulefo_i16x8_shl(v: V128, count: u32) -> V128
    ensures { number result ≡ unary 16 (ishl 16 count) (number v) }
{
    v.i16x8_shl(count)
}

#[unsafe(no_mangle)]
pub extern "C" fn gatulefo_i32x4_shl(v: V128, count: u32) -> V128
    ensures { number result ≡ unary 32 (ishl 32 count) (number v) }
{
    v.i32x4_shl(count)
}

#[unsafe(no_mangle)]
pub extern "C" fn gatulefo_i64x2_shl(v: V128, count: u32) -> V128
    ensures { number result ≡ unary 64 (ishl 64 count) (number v) }
{
    v.i64x2_shl(count)
}

#[unsafe(no_mangle)]
pub extern "C" fn gatulefo_i8x16_shr_s(v: V128, count: u32) -> V128
    ensures { number result ≡ unary 8 (ishr_s 8 count) (number v) }
{
    v.i8x16_shr_s(count)
}

#[unsafe(no_mangle)]
pub extern "C" fn gatulefo_i8x16_shr_u(v: V128, count: u32) -> V128
    ensures { number result ≡ unary 8 (ishr_u 8 count) (number v) }
{
    v.i8x16_shr_u(count)
}

#[unsafe(no_mangle)]
pub extern "C" fn gatulefo_i16x8_shr_s(v: V128, count: u32) -> V128
    ensures { number result ≡ unary 16 (ishr_s 16 count) (number v) }
{
    v.i16x8_shr_s(count)
}

#[unsafe(no_mangle)]
pub extern "C" fn gatulefo_i16x8_shr_u(v: V128, count: u32) -> V128
    ensures { number result ≡ unary 16 (ishr_u 16 count) (number v) }
{
    v.i16x8_shr_u(count)
}

#[unsafe(no_mangle)]
pub extern "C" fn gatulefo_i32x4_shr_s(v: V128, count: u32) -> V128
    ensures { number result ≡ unary 32 (ishr_s 32 count) (number v) }
{
    v.i32x4_shr_s(count)
}

#[unsafe(no_mangle)]
pub extern "C" fn gatulefo_i32x4_shr_u(v: V128, count: u32) -> V128
    ensures { number result ≡ unary 32 (ishr_u 32 count) (number v) }
{
    v.i32x4_shr_u(count)
}

#[unsafe(no_mangle)]
pub extern "C" fn gatulefo_i64x2_shr_s(v: V128, count: u32) -> V128
    ensures { number result ≡ unary 64 (ishr_s 64 count) (number v) }
{
    v.i64x2_shr_s(count)
}

#[unsafe(no_mangle)]
pub extern "C" fn gatulefo_i64x2_shr_u(v: V128, count: u32) -> V128
    ensures { number result ≡ unary 64 (ishr_u 64 count) (number v) }
{
    v.i64x2_shr_u(count)
}
