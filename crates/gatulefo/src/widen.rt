// Lanes of one width from those of another: extending, extended products and sums, the dot product, narrowing, and what the widening loads do with
// their bits.
ghost use Rattle.simd.specs.Number.{number};
ghost use Rattle.standard.specs.Integer.{extend_u, extend_s, narrow_u, narrow_s};
ghost use Rattle.standard.specs.Lanes.{low_half, high_half};
ghost use Rattle.standard.specs.Vector.{extend, extmul, extadd_pairwise, dot, narrow, widen};
ghost use Rattle.std.specs.Prelude.{◌≡◌};

use simd::V128;

#[unsafe(no_mangle)]
pub extern "C" fn gatulefo_i16x8_extend_low_i8x16_s(v: V128) -> V128
    ensures { number result ≡ extend low_half extend_s 8 (number v) }
{
    v.i16x8_extend_low_i8x16_s()
}

#[unsafe(no_mangle)]
pub extern "C" fn gatulefo_i16x8_extend_low_i8x16_u(v: V128) -> V128
    ensures { number result ≡ extend low_half extend_u 8 (number v) }
{
    v.i16x8_extend_low_i8x16_u()
}

#[unsafe(no_mangle)]
pub extern "C" fn gatulefo_i32x4_extend_low_i16x8_s(v: V128) -> V128
    ensures { number result ≡ extend low_half extend_s 16 (number v) }
{
    v.i32x4_extend_low_i16x8_s()
}

#[unsafe(no_mangle)]
pub extern "C" fn gatulefo_i32x4_extend_low_i16x8_u(v: V128) -> V128
    ensures { number result ≡ extend low_half extend_u 16 (number v) }
{
    v.i32x4_extend_low_i16x8_u()
}

#[unsafe(no_mangle)]
pub extern "C" fn gatulefo_i64x2_extend_low_i32x4_s(v: V128) -> V128
    ensures { number result ≡ extend low_half extend_s 32 (number v) }
{
    v.i64x2_extend_low_i32x4_s()
}

#[unsafe(no_mangle)]
pub extern "C" fn gatulefo_i64x2_extend_low_i32x4_u(v: V128) -> V128
    ensures { number result ≡ extend low_half extend_u 32 (number v) }
{
    v.i64x2_extend_low_i32x4_u()
}

#[unsafe(no_mangle)]
pub extern "C" fn gatulefo_i16x8_extend_high_i8x16_s(v: V128) -> V128
    ensures { number result ≡ extend high_half extend_s 8 (number v) }
{
    v.i16x8_extend_high_i8x16_s()
}

#[unsafe(no_mangle)]
pub extern "C" fn gatulefo_i16x8_extend_high_i8x16_u(v: V128) -> V128
    ensures { number result ≡ extend high_half extend_u 8 (number v) }
{
    v.i16x8_extend_high_i8x16_u()
}

#[unsafe(no_mangle)]
pub extern "C" fn gatulefo_i32x4_extend_high_i16x8_s(v: V128) -> V128
    ensures { number result ≡ extend high_half extend_s 16 (number v) }
{
    v.i32x4_extend_high_i16x8_s()
}

#[unsafe(no_mangle)]
pub extern "C" fn gatulefo_i32x4_extend_high_i16x8_u(v: V128) -> V128
    ensures { number result ≡ extend high_half extend_u 16 (number v) }
{
    v.i32x4_extend_high_i16x8_u()
}

#[unsafe(no_mangle)]
pub extern "C" fn gatulefo_i64x2_extend_high_i32x4_s(v: V128) -> V128
    ensures { number result ≡ extend high_half extend_s 32 (number v) }
{
    v.i64x2_extend_high_i32x4_s()
}

#[unsafe(no_mangle)]
pub extern "C" fn gatulefo_i64x2_extend_high_i32x4_u(v: V128) -> V128
    ensures { number result ≡ extend high_half extend_u 32 (number v) }
{
    v.i64x2_extend_high_i32x4_u()
}

#[unsafe(no_mangle)]
pub extern "C" fn gatulefo_i16x8_extmul_low_i8x16_s(lhs: V128, rhs: V128) -> V128
    ensures { number result ≡ extmul low_half extend_s 8 (number lhs) (number rhs) }
{
    lhs.i16x8_extmul_low_i8x16_s(rhs)
}

#[unsafe(no_mangle)]
pub extern "C" fn gatulefo_i16x8_extmul_low_i8x16_u(lhs: V128, rhs: V128) -> V128
    ensures { number result ≡ extmul low_half extend_u 8 (number lhs) (number rhs) }
{
    lhs.i16x8_extmul_low_i8x16_u(rhs)
}

#[unsafe(no_mangle)]
pub extern "C" fn gatulefo_i32x4_extmul_low_i16x8_s(lhs: V128, rhs: V128) -> V128
    ensures { number result ≡ extmul low_half extend_s 16 (number lhs) (number rhs) }
{
    lhs.i32x4_extmul_low_i16x8_s(rhs)
}

#[unsafe(no_mangle)]
pub extern "C" fn gatulefo_i32x4_extmul_low_i16x8_u(lhs: V128, rhs: V128) -> V128
    ensures { number result ≡ extmul low_half extend_u 16 (number lhs) (number rhs) }
{
    lhs.i32x4_extmul_low_i16x8_u(rhs)
}

#[unsafe(no_mangle)]
pub extern "C" fn gatulefo_i64x2_extmul_low_i32x4_s(lhs: V128, rhs: V128) -> V128
    ensures { number result ≡ extmul low_half extend_s 32 (number lhs) (number rhs) }
{
    lhs.i64x2_extmul_low_i32x4_s(rhs)
}

#[unsafe(no_mangle)]
pub extern "C" fn gatulefo_i64x2_extmul_low_i32x4_u(lhs: V128, rhs: V128) -> V128
    ensures { number result ≡ extmul low_half extend_u 32 (number lhs) (number rhs) }
{
    lhs.i64x2_extmul_low_i32x4_u(rhs)
}

#[unsafe(no_mangle)]
pub extern "C" fn gatulefo_i16x8_extmul_high_i8x16_s(lhs: V128, rhs: V128) -> V128
    ensures { number result ≡ extmul high_half extend_s 8 (number lhs) (number rhs) }
{
    lhs.i16x8_extmul_high_i8x16_s(rhs)
}

#[unsafe(no_mangle)]
pub extern "C" fn gatulefo_i16x8_extmul_high_i8x16_u(lhs: V128, rhs: V128) -> V128
    ensures { number result ≡ extmul high_half extend_u 8 (number lhs) (number rhs) }
{
    lhs.i16x8_extmul_high_i8x16_u(rhs)
}

#[unsafe(no_mangle)]
pub extern "C" fn gatulefo_i32x4_extmul_high_i16x8_s(lhs: V128, rhs: V128) -> V128
    ensures { number result ≡ extmul high_half extend_s 16 (number lhs) (number rhs) }
{
    lhs.i32x4_extmul_high_i16x8_s(rhs)
}

#[unsafe(no_mangle)]
pub extern "C" fn gatulefo_i32x4_extmul_high_i16x8_u(lhs: V128, rhs: V128) -> V128
    ensures { number result ≡ extmul high_half extend_u 16 (number lhs) (number rhs) }
{
    lhs.i32x4_extmul_high_i16x8_u(rhs)
}

#[unsafe(no_mangle)]
pub extern "C" fn gatulefo_i64x2_extmul_high_i32x4_s(lhs: V128, rhs: V128) -> V128
    ensures { number result ≡ extmul high_half extend_s 32 (number lhs) (number rhs) }
{
    lhs.i64x2_extmul_high_i32x4_s(rhs)
}

#[unsafe(no_mangle)]
pub extern "C" fn gatulefo_i64x2_extmul_high_i32x4_u(lhs: V128, rhs: V128) -> V128
    ensures { number result ≡ extmul high_half extend_u 32 (number lhs) (number rhs) }
{
    lhs.i64x2_extmul_high_i32x4_u(rhs)
}

#[unsafe(no_mangle)]
pub extern "C" fn gatulefo_i16x8_extadd_pairwise_i8x16_s(v: V128) -> V128
    ensures { number result ≡ extadd_pairwise extend_s 8 (number v) }
{
    v.i16x8_extadd_pairwise_i8x16_s()
}

#[unsafe(no_mangle)]
pub extern "C" fn gatulefo_i16x8_extadd_pairwise_i8x16_u(v: V128) -> V128
    ensures { number result ≡ extadd_pairwise extend_u 8 (number v) }
{
    v.i16x8_extadd_pairwise_i8x16_u()
}

#[unsafe(no_mangle)]
pub extern "C" fn gatulefo_i32x4_extadd_pairwise_i16x8_s(v: V128) -> V128
    ensures { number result ≡ extadd_pairwise extend_s 16 (number v) }
{
    v.i32x4_extadd_pairwise_i16x8_s()
}

#[unsafe(no_mangle)]
pub extern "C" fn gatulefo_i32x4_extadd_pairwise_i16x8_u(v: V128) -> V128
    ensures { number result ≡ extadd_pairwise extend_u 16 (number v) }
{
    v.i32x4_extadd_pairwise_i16x8_u()
}

#[unsafe(no_mangle)]
pub extern "C" fn gatulefo_i8x16_narrow_i16x8_s(low: V128, high: V128) -> V128
    ensures { number result ≡ narrow narrow_s 8 (number low) (number high) }
{
    low.i8x16_narrow_i16x8_s(high)
}

#[unsafe(no_mangle)]
pub extern "C" fn gatulefo_i8x16_narrow_i16x8_u(low: V128, high: V128) -> V128
    ensures { number result ≡ narrow narrow_u 8 (number low) (number high) }
{
    low.i8x16_narrow_i16x8_u(high)
}

#[unsafe(no_mangle)]
pub extern "C" fn gatulefo_i16x8_narrow_i32x4_s(low: V128, high: V128) -> V128
    ensures { number result ≡ narrow narrow_s 16 (number low) (number high) }
{
    low.i16x8_narrow_i32x4_s(high)
}

#[unsafe(no_mangle)]
pub extern "C" fn gatulefo_i16x8_narrow_i32x4_u(low: V128, high: V128) -> V128
    ensures { number result ≡ narrow narrow_u 16 (number low) (number high) }
{
    low.i16x8_narrow_i32x4_u(high)
}

#[unsafe(no_mangle)]
pub extern "C" fn gatulefo_i32x4_dot_i16x8_s(lhs: V128, rhs: V128) -> V128
    ensures { number result ≡ dot 16 (number lhs) (number rhs) }
{
    lhs.i32x4_dot_i16x8_s(rhs)
}

#[unsafe(no_mangle)]
pub extern "C" fn gatulefo_v128_low32_zero(bits: u32) -> V128
    ensures { number result ≡ extend_u 32 128 bits }
{
    V128::v128_low32_zero(bits)
}

#[unsafe(no_mangle)]
pub extern "C" fn gatulefo_v128_low64_zero(bits: u64) -> V128
    ensures { number result ≡ extend_u 64 128 bits }
{
    V128::v128_low64_zero(bits)
}

#[unsafe(no_mangle)]
pub extern "C" fn gatulefo_v128_widen8x8_s(bits: u64) -> V128
    ensures { number result ≡ widen extend_s 8 bits }
{
    V128::v128_widen8x8_s(bits)
}

#[unsafe(no_mangle)]
pub extern "C" fn gatulefo_v128_widen8x8_u(bits: u64) -> V128
    ensures { number result ≡ widen extend_u 8 bits }
{
    V128::v128_widen8x8_u(bits)
}

#[unsafe(no_mangle)]
pub extern "C" fn gatulefo_v128_widen16x4_s(bits: u64) -> V128
    ensures { number result ≡ widen extend_s 16 bits }
{
    V128::v128_widen16x4_s(bits)
}

#[unsafe(no_mangle)]
pub extern "C" fn gatulefo_v128_widen16x4_u(bits: u64) -> V128
    ensures { number result ≡ widen extend_u 16 bits }
{
    V128::v128_widen16x4_u(bits)
}

#[unsafe(no_mangle)]
pub extern "C" fn gatulefo_v128_widen32x2_s(bits: u64) -> V128
    ensures { number result ≡ widen extend_s 32 bits }
{
    V128::v128_widen32x2_s(bits)
}

#[unsafe(no_mangle)]
pub extern "C" fn gatulefo_v128_widen32x2_u(bits: u64) -> V128
    ensures { number result ≡ widen extend_u 32 bits }
{
    V128::v128_widen32x2_u(bits)
}
