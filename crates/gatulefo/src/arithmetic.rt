// Lane by lane integer arithmetic.
ghost use Rattle.simd.specs.Number.{number};
ghost use Rattle.standard.specs.Integer.{iadd, isub, imul, ineg, iabs, ipopcnt, imin_u, imin_s, imax_u, imax_s, iadd_sat_u, iadd_sat_s, isub_sat_u, isub_sat_s};
ghost use Rattle.standard.specs.Integer.{iavgr_u, iq15mulrsat_s};
ghost use Rattle.standard.specs.Lanes.{unary, binary};
ghost use Rattle.std.specs.Prelude.{◌≡◌};

use simd::V128;

#[unsafe(no_mangle)]
pub extern "C" fn gatulefo_i64x2_add(lhs: V128, rhs: V128) -> V128
    ensures { number result ≡ binary 64 (iadd 64) (number lhs) (number rhs) }
{
    lhs.i64x2_add(rhs)
}

#[unsafe(no_mangle)]
pub extern "C" fn gatulefo_i32x4_add(lhs: V128, rhs: V128) -> V128
    ensures { number result ≡ binary 32 (iadd 32) (number lhs) (number rhs) }
{
    lhs.i32x4_add(rhs)
}

#[unsafe(no_mangle)]
pub extern "C" fn gatulefo_i16x8_add(lhs: V128, rhs: V128) -> V128
    ensures { number result ≡ binary 16 (iadd 16) (number lhs) (number rhs) }
{
    lhs.i16x8_add(rhs)
}

#[unsafe(no_mangle)]
pub extern "C" fn gatulefo_i8x16_add(lhs: V128, rhs: V128) -> V128
    ensures { number result ≡ binary 8 (iadd 8) (number lhs) (number rhs) }
{
    lhs.i8x16_add(rhs)
}

#[unsafe(no_mangle)]
pub extern "C" fn gatulefo_i64x2_sub(lhs: V128, rhs: V128) -> V128
    ensures { number result ≡ binary 64 (isub 64) (number lhs) (number rhs) }
{
    lhs.i64x2_sub(rhs)
}

#[unsafe(no_mangle)]
pub extern "C" fn gatulefo_i32x4_sub(lhs: V128, rhs: V128) -> V128
    ensures { number result ≡ binary 32 (isub 32) (number lhs) (number rhs) }
{
    lhs.i32x4_sub(rhs)
}

#[unsafe(no_mangle)]
pub extern "C" fn gatulefo_i16x8_sub(lhs: V128, rhs: V128) -> V128
    ensures { number result ≡ binary 16 (isub 16) (number lhs) (number rhs) }
{
    lhs.i16x8_sub(rhs)
}

#[unsafe(no_mangle)]
pub extern "C" fn gatulefo_i8x16_sub(lhs: V128, rhs: V128) -> V128
    ensures { number result ≡ binary 8 (isub 8) (number lhs) (number rhs) }
{
    lhs.i8x16_sub(rhs)
}

#[unsafe(no_mangle)]
pub extern "C" fn gatulefo_i64x2_mul(lhs: V128, rhs: V128) -> V128
    ensures { number result ≡ binary 64 (imul 64) (number lhs) (number rhs) }
{
    lhs.i64x2_mul(rhs)
}

#[unsafe(no_mangle)]
pub extern "C" fn gatulefo_i32x4_mul(lhs: V128, rhs: V128) -> V128
    ensures { number result ≡ binary 32 (imul 32) (number lhs) (number rhs) }
{
    lhs.i32x4_mul(rhs)
}

#[unsafe(no_mangle)]
pub extern "C" fn gatulefo_i16x8_mul(lhs: V128, rhs: V128) -> V128
    ensures { number result ≡ binary 16 (imul 16) (number lhs) (number rhs) }
{
    lhs.i16x8_mul(rhs)
}

#[unsafe(no_mangle)]
pub extern "C" fn gatulefo_i8x16_mul(lhs: V128, rhs: V128) -> V128
    ensures { number result ≡ binary 8 (imul 8) (number lhs) (number rhs) }
{
    lhs.i8x16_mul(rhs)
}

#[unsafe(no_mangle)]
pub extern "C" fn gatulefo_i8x16_add_sat_s(lhs: V128, rhs: V128) -> V128
    ensures { number result ≡ binary 8 (iadd_sat_s 8) (number lhs) (number rhs) }
{
    lhs.i8x16_add_sat_s(rhs)
}

#[unsafe(no_mangle)]
pub extern "C" fn gatulefo_i8x16_add_sat_u(lhs: V128, rhs: V128) -> V128
    ensures { number result ≡ binary 8 (iadd_sat_u 8) (number lhs) (number rhs) }
{
    lhs.i8x16_add_sat_u(rhs)
}

#[unsafe(no_mangle)]
pub extern "C" fn gatulefo_i16x8_add_sat_s(lhs: V128, rhs: V128) -> V128
    ensures { number result ≡ binary 16 (iadd_sat_s 16) (number lhs) (number rhs) }
{
    lhs.i16x8_add_sat_s(rhs)
}

#[unsafe(no_mangle)]
pub extern "C" fn gatulefo_i16x8_add_sat_u(lhs: V128, rhs: V128) -> V128
    ensures { number result ≡ binary 16 (iadd_sat_u 16) (number lhs) (number rhs) }
{
    lhs.i16x8_add_sat_u(rhs)
}

#[unsafe(no_mangle)]
pub extern "C" fn gatulefo_i8x16_sub_sat_s(lhs: V128, rhs: V128) -> V128
    ensures { number result ≡ binary 8 (isub_sat_s 8) (number lhs) (number rhs) }
{
    lhs.i8x16_sub_sat_s(rhs)
}

#[unsafe(no_mangle)]
pub extern "C" fn gatulefo_i8x16_sub_sat_u(lhs: V128, rhs: V128) -> V128
    ensures { number result ≡ binary 8 (isub_sat_u 8) (number lhs) (number rhs) }
{
    lhs.i8x16_sub_sat_u(rhs)
}

#[unsafe(no_mangle)]
pub extern "C" fn gatulefo_i16x8_sub_sat_s(lhs: V128, rhs: V128) -> V128
    ensures { number result ≡ binary 16 (isub_sat_s 16) (number lhs) (number rhs) }
{
    lhs.i16x8_sub_sat_s(rhs)
}

#[unsafe(no_mangle)]
pub extern "C" fn gatulefo_i16x8_sub_sat_u(lhs: V128, rhs: V128) -> V128
    ensures { number result ≡ binary 16 (isub_sat_u 16) (number lhs) (number rhs) }
{
    lhs.i16x8_sub_sat_u(rhs)
}

#[unsafe(no_mangle)]
pub extern "C" fn gatulefo_i16x8_q15mulr_sat_s(lhs: V128, rhs: V128) -> V128
    ensures { number result ≡ binary 16 (iq15mulrsat_s 16) (number lhs) (number rhs) }
{
    lhs.i16x8_q15mulr_sat_s(rhs)
}

#[unsafe(no_mangle)]
pub extern "C" fn gatulefo_i8x16_min_s(lhs: V128, rhs: V128) -> V128
    ensures { number result ≡ binary 8 (imin_s 8) (number lhs) (number rhs) }
{
    lhs.i8x16_min_s(rhs)
}

#[unsafe(no_mangle)]
pub extern "C" fn gatulefo_i8x16_min_u(lhs: V128, rhs: V128) -> V128
    ensures { number result ≡ binary 8 (imin_u 8) (number lhs) (number rhs) }
{
    lhs.i8x16_min_u(rhs)
}

#[unsafe(no_mangle)]
pub extern "C" fn gatulefo_i16x8_min_s(lhs: V128, rhs: V128) -> V128
    ensures { number result ≡ binary 16 (imin_s 16) (number lhs) (number rhs) }
{
    lhs.i16x8_min_s(rhs)
}

#[unsafe(no_mangle)]
pub extern "C" fn gatulefo_i16x8_min_u(lhs: V128, rhs: V128) -> V128
    ensures { number result ≡ binary 16 (imin_u 16) (number lhs) (number rhs) }
{
    lhs.i16x8_min_u(rhs)
}

#[unsafe(no_mangle)]
pub extern "C" fn gatulefo_i32x4_min_s(lhs: V128, rhs: V128) -> V128
    ensures { number result ≡ binary 32 (imin_s 32) (number lhs) (number rhs) }
{
    lhs.i32x4_min_s(rhs)
}

#[unsafe(no_mangle)]
pub extern "C" fn gatulefo_i32x4_min_u(lhs: V128, rhs: V128) -> V128
    ensures { number result ≡ binary 32 (imin_u 32) (number lhs) (number rhs) }
{
    lhs.i32x4_min_u(rhs)
}

#[unsafe(no_mangle)]
pub extern "C" fn gatulefo_i8x16_max_s(lhs: V128, rhs: V128) -> V128
    ensures { number result ≡ binary 8 (imax_s 8) (number lhs) (number rhs) }
{
    lhs.i8x16_max_s(rhs)
}

#[unsafe(no_mangle)]
pub extern "C" fn gatulefo_i8x16_max_u(lhs: V128, rhs: V128) -> V128
    ensures { number result ≡ binary 8 (imax_u 8) (number lhs) (number rhs) }
{
    lhs.i8x16_max_u(rhs)
}

#[unsafe(no_mangle)]
pub extern "C" fn gatulefo_i16x8_max_s(lhs: V128, rhs: V128) -> V128
    ensures { number result ≡ binary 16 (imax_s 16) (number lhs) (number rhs) }
{
    lhs.i16x8_max_s(rhs)
}

#[unsafe(no_mangle)]
pub extern "C" fn gatulefo_i16x8_max_u(lhs: V128, rhs: V128) -> V128
    ensures { number result ≡ binary 16 (imax_u 16) (number lhs) (number rhs) }
{
    lhs.i16x8_max_u(rhs)
}

#[unsafe(no_mangle)]
pub extern "C" fn gatulefo_i32x4_max_s(lhs: V128, rhs: V128) -> V128
    ensures { number result ≡ binary 32 (imax_s 32) (number lhs) (number rhs) }
{
    lhs.i32x4_max_s(rhs)
}

#[unsafe(no_mangle)]
pub extern "C" fn gatulefo_i32x4_max_u(lhs: V128, rhs: V128) -> V128
    ensures { number result ≡ binary 32 (imax_u 32) (number lhs) (number rhs) }
{
    lhs.i32x4_max_u(rhs)
}

#[unsafe(no_mangle)]
pub extern "C" fn gatulefo_i8x16_avgr_u(lhs: V128, rhs: V128) -> V128
    ensures { number result ≡ binary 8 (iavgr_u 8) (number lhs) (number rhs) }
{
    lhs.i8x16_avgr_u(rhs)
}

#[unsafe(no_mangle)]
pub extern "C" fn gatulefo_i16x8_avgr_u(lhs: V128, rhs: V128) -> V128
    ensures { number result ≡ binary 16 (iavgr_u 16) (number lhs) (number rhs) }
{
    lhs.i16x8_avgr_u(rhs)
}

#[unsafe(no_mangle)]
pub extern "C" fn gatulefo_i64x2_neg(v: V128) -> V128
    ensures { number result ≡ unary 64 (ineg 64) (number v) }
{
    v.i64x2_neg()
}

#[unsafe(no_mangle)]
pub extern "C" fn gatulefo_i32x4_neg(v: V128) -> V128
    ensures { number result ≡ unary 32 (ineg 32) (number v) }
{
    v.i32x4_neg()
}

#[unsafe(no_mangle)]
pub extern "C" fn gatulefo_i16x8_neg(v: V128) -> V128
    ensures { number result ≡ unary 16 (ineg 16) (number v) }
{
    v.i16x8_neg()
}

#[unsafe(no_mangle)]
pub extern "C" fn gatulefo_i8x16_neg(v: V128) -> V128
    ensures { number result ≡ unary 8 (ineg 8) (number v) }
{
    v.i8x16_neg()
}

#[unsafe(no_mangle)]
pub extern "C" fn gatulefo_i8x16_abs(v: V128) -> V128
    ensures { number result ≡ unary 8 (iabs 8) (number v) }
{
    v.i8x16_abs()
}

#[unsafe(no_mangle)]
pub extern "C" fn gatulefo_i16x8_abs(v: V128) -> V128
    ensures { number result ≡ unary 16 (iabs 16) (number v) }
{
    v.i16x8_abs()
}

#[unsafe(no_mangle)]
pub extern "C" fn gatulefo_i32x4_abs(v: V128) -> V128
    ensures { number result ≡ unary 32 (iabs 32) (number v) }
{
    v.i32x4_abs()
}

#[unsafe(no_mangle)]
pub extern "C" fn gatulefo_i64x2_abs(v: V128) -> V128
    ensures { number result ≡ unary 64 (iabs 64) (number v) }
{
    v.i64x2_abs()
}

#[unsafe(no_mangle)]
pub extern "C" fn gatulefo_i8x16_popcnt(v: V128) -> V128
    ensures { number result ≡ unary 8 (ipopcnt 8) (number v) }
{
    v.i8x16_popcnt()
}
