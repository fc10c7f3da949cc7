// Lane by lane integer comparison: all ones or all zeros.
ghost use Rattle.simd.specs.Number.{number};
ghost use Rattle.standard.specs.Integer.{ieq, ine, ilt_u, igt_u, ile_u, ige_u, ilt_s, igt_s, ile_s, ige_s};
ghost use Rattle.standard.specs.Lanes.{binary};
ghost use Rattle.std.specs.Prelude.{◌≡◌};

use simd::V128;

#[unsafe(no_mangle)]
pub extern "C" fn gatulefo_i8x16_eq(lhs: V128, rhs: V128) -> V128
    ensures { number result ≡ binary 8 (ieq 8) (number lhs) (number rhs) }
{
    lhs.i8x16_eq(rhs)
}

#[unsafe(no_mangle)]
pub extern "C" fn gatulefo_i16x8_eq(lhs: V128, rhs: V128) -> V128
    ensures { number result ≡ binary 16 (ieq 16) (number lhs) (number rhs) }
{
    lhs.i16x8_eq(rhs)
}

#[unsafe(no_mangle)]
pub extern "C" fn gatulefo_i32x4_eq(lhs: V128, rhs: V128) -> V128
    ensures { number result ≡ binary 32 (ieq 32) (number lhs) (number rhs) }
{
    lhs.i32x4_eq(rhs)
}

#[unsafe(no_mangle)]
pub extern "C" fn gatulefo_i64x2_eq(lhs: V128, rhs: V128) -> V128
    ensures { number result ≡ binary 64 (ieq 64) (number lhs) (number rhs) }
{
    lhs.i64x2_eq(rhs)
}

#[unsafe(no_mangle)]
pub extern "C" fn gatulefo_i8x16_ne(lhs: V128, rhs: V128) -> V128
    ensures { number result ≡ binary 8 (ine 8) (number lhs) (number rhs) }
{
    lhs.i8x16_ne(rhs)
}

#[unsafe(no_mangle)]
pub extern "C" fn gatulefo_i16x8_ne(lhs: V128, rhs: V128) -> V128
    ensures { number result ≡ binary 16 (ine 16) (number lhs) (number rhs) }
{
    lhs.i16x8_ne(rhs)
}

#[unsafe(no_mangle)]
pub extern "C" fn gatulefo_i32x4_ne(lhs: V128, rhs: V128) -> V128
    ensures { number result ≡ binary 32 (ine 32) (number lhs) (number rhs) }
{
    lhs.i32x4_ne(rhs)
}

#[unsafe(no_mangle)]
pub extern "C" fn gatulefo_i64x2_ne(lhs: V128, rhs: V128) -> V128
    ensures { number result ≡ binary 64 (ine 64) (number lhs) (number rhs) }
{
    lhs.i64x2_ne(rhs)
}

#[unsafe(no_mangle)]
pub extern "C" fn gatulefo_i8x16_lt_s(lhs: V128, rhs: V128) -> V128
    ensures { number result ≡ binary 8 (ilt_s 8) (number lhs) (number rhs) }
{
    lhs.i8x16_lt_s(rhs)
}

#[unsafe(no_mangle)]
pub extern "C" fn gatulefo_i8x16_lt_u(lhs: V128, rhs: V128) -> V128
    ensures { number result ≡ binary 8 (ilt_u 8) (number lhs) (number rhs) }
{
    lhs.i8x16_lt_u(rhs)
}

#[unsafe(no_mangle)]
pub extern "C" fn gatulefo_i16x8_lt_s(lhs: V128, rhs: V128) -> V128
    ensures { number result ≡ binary 16 (ilt_s 16) (number lhs) (number rhs) }
{
    lhs.i16x8_lt_s(rhs)
}

#[unsafe(no_mangle)]
pub extern "C" fn gatulefo_i16x8_lt_u(lhs: V128, rhs: V128) -> V128
    ensures { number result ≡ binary 16 (ilt_u 16) (number lhs) (number rhs) }
{
    lhs.i16x8_lt_u(rhs)
}

#[unsafe(no_mangle)]
pub extern "C" fn gatulefo_i32x4_lt_s(lhs: V128, rhs: V128) -> V128
    ensures { number result ≡ binary 32 (ilt_s 32) (number lhs) (number rhs) }
{
    lhs.i32x4_lt_s(rhs)
}

#[unsafe(no_mangle)]
pub extern "C" fn gatulefo_i32x4_lt_u(lhs: V128, rhs: V128) -> V128
    ensures { number result ≡ binary 32 (ilt_u 32) (number lhs) (number rhs) }
{
    lhs.i32x4_lt_u(rhs)
}

#[unsafe(no_mangle)]
pub extern "C" fn gatulefo_i64x2_lt_s(lhs: V128, rhs: V128) -> V128
    ensures { number result ≡ binary 64 (ilt_s 64) (number lhs) (number rhs) }
{
    lhs.i64x2_lt_s(rhs)
}

#[unsafe(no_mangle)]
pub extern "C" fn gatulefo_i8x16_le_s(lhs: V128, rhs: V128) -> V128
    ensures { number result ≡ binary 8 (ile_s 8) (number lhs) (number rhs) }
{
    lhs.i8x16_le_s(rhs)
}

#[unsafe(no_mangle)]
pub extern "C" fn gatulefo_i8x16_le_u(lhs: V128, rhs: V128) -> V128
    ensures { number result ≡ binary 8 (ile_u 8) (number lhs) (number rhs) }
{
    lhs.i8x16_le_u(rhs)
}

#[unsafe(no_mangle)]
pub extern "C" fn gatulefo_i16x8_le_s(lhs: V128, rhs: V128) -> V128
    ensures { number result ≡ binary 16 (ile_s 16) (number lhs) (number rhs) }
{
    lhs.i16x8_le_s(rhs)
}

#[unsafe(no_mangle)]
pub extern "C" fn gatulefo_i16x8_le_u(lhs: V128, rhs: V128) -> V128
    ensures { number result ≡ binary 16 (ile_u 16) (number lhs) (number rhs) }
{
    lhs.i16x8_le_u(rhs)
}

#[unsafe(no_mangle)]
pub extern "C" fn gatulefo_i32x4_le_s(lhs: V128, rhs: V128) -> V128
    ensures { number result ≡ binary 32 (ile_s 32) (number lhs) (number rhs) }
{
    lhs.i32x4_le_s(rhs)
}

#[unsafe(no_mangle)]
pub extern "C" fn gatulefo_i32x4_le_u(lhs: V128, rhs: V128) -> V128
    ensures { number result ≡ binary 32 (ile_u 32) (number lhs) (number rhs) }
{
    lhs.i32x4_le_u(rhs)
}

#[unsafe(no_mangle)]
pub extern "C" fn gatulefo_i64x2_le_s(lhs: V128, rhs: V128) -> V128
    ensures { number result ≡ binary 64 (ile_s 64) (number lhs) (number rhs) }
{
    lhs.i64x2_le_s(rhs)
}

#[unsafe(no_mangle)]
pub extern "C" fn gatulefo_i8x16_gt_s(lhs: V128, rhs: V128) -> V128
    ensures { number result ≡ binary 8 (igt_s 8) (number lhs) (number rhs) }
{
    lhs.i8x16_gt_s(rhs)
}

#[unsafe(no_mangle)]
pub extern "C" fn gatulefo_i8x16_gt_u(lhs: V128, rhs: V128) -> V128
    ensures { number result ≡ binary 8 (igt_u 8) (number lhs) (number rhs) }
{
    lhs.i8x16_gt_u(rhs)
}

#[unsafe(no_mangle)]
pub extern "C" fn gatulefo_i16x8_gt_s(lhs: V128, rhs: V128) -> V128
    ensures { number result ≡ binary 16 (igt_s 16) (number lhs) (number rhs) }
{
    lhs.i16x8_gt_s(rhs)
}

#[unsafe(no_mangle)]
pub extern "C" fn gatulefo_i16x8_gt_u(lhs: V128, rhs: V128) -> V128
    ensures { number result ≡ binary 16 (igt_u 16) (number lhs) (number rhs) }
{
    lhs.i16x8_gt_u(rhs)
}

#[unsafe(no_mangle)]
pub extern "C" fn gatulefo_i32x4_gt_s(lhs: V128, rhs: V128) -> V128
    ensures { number result ≡ binary 32 (igt_s 32) (number lhs) (number rhs) }
{
    lhs.i32x4_gt_s(rhs)
}

#[unsafe(no_mangle)]
pub extern "C" fn gatulefo_i32x4_gt_u(lhs: V128, rhs: V128) -> V128
    ensures { number result ≡ binary 32 (igt_u 32) (number lhs) (number rhs) }
{
    lhs.i32x4_gt_u(rhs)
}

#[unsafe(no_mangle)]
pub extern "C" fn gatulefo_i64x2_gt_s(lhs: V128, rhs: V128) -> V128
    ensures { number result ≡ binary 64 (igt_s 64) (number lhs) (number rhs) }
{
    lhs.i64x2_gt_s(rhs)
}

#[unsafe(no_mangle)]
pub extern "C" fn gatulefo_i8x16_ge_s(lhs: V128, rhs: V128) -> V128
    ensures { number result ≡ binary 8 (ige_s 8) (number lhs) (number rhs) }
{
    lhs.i8x16_ge_s(rhs)
}

#[unsafe(no_mangle)]
pub extern "C" fn gatulefo_i8x16_ge_u(lhs: V128, rhs: V128) -> V128
    ensures { number result ≡ binary 8 (ige_u 8) (number lhs) (number rhs) }
{
    lhs.i8x16_ge_u(rhs)
}

#[unsafe(no_mangle)]
pub extern "C" fn gatulefo_i16x8_ge_s(lhs: V128, rhs: V128) -> V128
    ensures { number result ≡ binary 16 (ige_s 16) (number lhs) (number rhs) }
{
    lhs.i16x8_ge_s(rhs)
}

#[unsafe(no_mangle)]
pub extern "C" fn gatulefo_i16x8_ge_u(lhs: V128, rhs: V128) -> V128
    ensures { number result ≡ binary 16 (ige_u 16) (number lhs) (number rhs) }
{
    lhs.i16x8_ge_u(rhs)
}

#[unsafe(no_mangle)]
pub extern "C" fn gatulefo_i32x4_ge_s(lhs: V128, rhs: V128) -> V128
    ensures { number result ≡ binary 32 (ige_s 32) (number lhs) (number rhs) }
{
    lhs.i32x4_ge_s(rhs)
}

#[unsafe(no_mangle)]
pub extern "C" fn gatulefo_i32x4_ge_u(lhs: V128, rhs: V128) -> V128
    ensures { number result ≡ binary 32 (ige_u 32) (number lhs) (number rhs) }
{
    lhs.i32x4_ge_u(rhs)
}

#[unsafe(no_mangle)]
pub extern "C" fn gatulefo_i64x2_ge_s(lhs: V128, rhs: V128) -> V128
    ensures { number result ≡ binary 64 (ige_s 64) (number lhs) (number rhs) }
{
    lhs.i64x2_ge_s(rhs)
}
