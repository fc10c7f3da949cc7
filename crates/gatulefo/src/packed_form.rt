// The packed forms: each half as one number, with the answers of the functions of the same names.
ghost use Rattle.simd.specs.Number.{number};
ghost use Rattle.std.specs.Prelude.{cond, ◌≡◌};
ghost use Rattle.standard.specs.Integer.{iadd, isub, ineg, ieq, iavgr_u, ipopcnt, ishl, ishr_u};
ghost use Rattle.standard.specs.Lanes.{unary, binary};
ghost use Rattle.standard.specs.Vector.{any_true, all_true, bitmask};

use simd::V128;

#[unsafe(no_mangle)]
pub extern "C" fn gatulefo_packed_i64x2_add(a: V128, b: V128) -> V128
    ensures { number result ≡ binary 64 (iadd 64) (number a) (number b) }
{
    packed_vector::i64x2_add(a, b)
}

#[unsafe(no_mangle)]
pub extern "C" fn gatulefo_packed_i32x4_add(a: V128, b: V128) -> V128
    ensures { number result ≡ binary 32 (iadd 32) (number a) (number b) }
{
    packed_vector::i32x4_add(a, b)
}

#[unsafe(no_mangle)]
pub extern "C" fn gatulefo_packed_i16x8_add(a: V128, b: V128) -> V128
    ensures { number result ≡ binary 16 (iadd 16) (number a) (number b) }
{
    packed_vector::i16x8_add(a, b)
}

#[unsafe(no_mangle)]
pub extern "C" fn gatulefo_packed_i8x16_add(a: V128, b: V128) -> V128
    ensures { number result ≡ binary 8 (iadd 8) (number a) (number b) }
{
    packed_vector::i8x16_add(a, b)
}

#[unsafe(no_mangle)]
pub extern "C" fn gatulefo_packed_i64x2_sub(a: V128, b: V128) -> V128
    ensures { number result ≡ binary 64 (isub 64) (number a) (number b) }
{
    packed_vector::i64x2_sub(a, b)
}

#[unsafe(no_mangle)]
pub extern "C" fn gatulefo_packed_i32x4_sub(a: V128, b: V128) -> V128
    ensures { number result ≡ binary 32 (isub 32) (number a) (number b) }
{
    packed_vector::i32x4_sub(a, b)
}

#[unsafe(no_mangle)]
pub extern "C" fn gatulefo_packed_i16x8_sub(a: V128, b: V128) -> V128
    ensures { number result ≡ binary 16 (isub 16) (number a) (number b) }
{
    packed_vector::i16x8_sub(a, b)
}

#[unsafe(no_mangle)]
pub extern "C" fn gatulefo_packed_i8x16_sub(a: V128, b: V128) -> V128
    ensures { number result ≡ binary 8 (isub 8) (number a) (number b) }
{
    packed_vector::i8x16_sub(a, b)
}

#[unsafe(no_mangle)]
pub extern "C" fn gatulefo_packed_i8x16_avgr_u(a: V128, b: V128) -> V128
    ensures { number result ≡ binary 8 (iavgr_u 8) (number a) (number b) }
{
    packed_vector::i8x16_avgr_u(a, b)
}

#[unsafe(no_mangle)]
pub extern "C" fn gatulefo_packed_i16x8_avgr_u(a: V128, b: V128) -> V128
    ensures { number result ≡ binary 16 (iavgr_u 16) (number a) (number b) }
{
    packed_vector::i16x8_avgr_u(a, b)
}

#[unsafe(no_mangle)]
pub extern "C" fn gatulefo_packed_i64x2_neg(a: V128) -> V128
    ensures { number result ≡ unary 64 (ineg 64) (number a) }
{
    packed_vector::i64x2_neg(a)
}

#[unsafe(no_mangle)]
pub extern "C" fn gatulefo_packed_i32x4_neg(a: V128) -> V128
    ensures { number result ≡ unary 32 (ineg 32) (number a) }
{
    packed_vector::i32x4_neg(a)
}

#[unsafe(no_mangle)]
pub extern "C" fn gatulefo_packed_i16x8_neg(a: V128) -> V128
    ensures { number result ≡ unary 16 (ineg 16) (number a) }
{
    packed_vector::i16x8_neg(a)
}

#[unsafe(no_mangle)]
pub extern "C" fn gatulefo_packed_i8x16_neg(a: V128) -> V128
    ensures { number result ≡ unary 8 (ineg 8) (number a) }
{
    packed_vector::i8x16_neg(a)
}

#[unsafe(no_mangle)]
pub extern "C" fn gatulefo_packed_i8x16_popcnt(a: V128) -> V128
    ensures { number result ≡ unary 8 (ipopcnt 8) (number a) }
{
    packed_vector::i8x16_popcnt(a)
}

#[unsafe(no_mangle)]
pub extern "C" fn gatulefo_packed_i8x16_eq(a: V128, b: V128) -> V128
    ensures { number result ≡ binary 8 (ieq 8) (number a) (number b) }
{
    packed_vector::i8x16_eq(a, b)
}

#[unsafe(no_mangle)]
pub extern "C" fn gatulefo_packed_i16x8_eq(a: V128, b: V128) -> V128
    ensures { number result ≡ binary 16 (ieq 16) (number a) (number b) }
{
    packed_vector::i16x8_eq(a, b)
}

#[unsafe(no_mangle)]
pub extern "C" fn gatulefo_packed_i32x4_eq(a: V128, b: V128) -> V128
    ensures { number result ≡ binary 32 (ieq 32) (number a) (number b) }
{
    packed_vector::i32x4_eq(a, b)
}

#[unsafe(no_mangle)]
pub extern "C" fn gatulefo_packed_i64x2_eq(a: V128, b: V128) -> V128
    ensures { number result ≡ binary 64 (ieq 64) (number a) (number b) }
{
    packed_vector::i64x2_eq(a, b)
}

#[unsafe(no_mangle)]
pub extern "C" fn gatulefo_packed_i8x16_shl(a: V128, count: u32) -> V128
    ensures { number result ≡ unary 8 (ishl 8 count) (number a) }
{
    packed_vector::i8x16_shl(a, count)
}

#[unsafe(no_mangle)]
pub extern "C" fn gatulefo_packed_i16x8_shl(a: V128, count: u32) -> V128
    ensures { number result ≡ unary 16 (ishl 16 count) (number a) }
{
    packed_vector::i16x8_shl(a, count)
}

#[unsafe(no_mangle)]
pub extern "C" fn gatulefo_packed_i32x4_shl(a: V128, count: u32) -> V128
    ensures { number result ≡ unary 32 (ishl 32 count) (number a) }
{
    packed_vector::i32x4_shl(a, count)
}

#[unsafe(no_mangle)]
pub extern "C" fn gatulefo_packed_i64x2_shl(a: V128, count: u32) -> V128
    ensures { number result ≡ unary 64 (ishl 64 count) (number a) }
{
    packed_vector::i64x2_shl(a, count)
}

#[unsafe(no_mangle)]
pub extern "C" fn gatulefo_packed_i8x16_shr_u(a: V128, count: u32) -> V128
    ensures { number result ≡ unary 8 (ishr_u 8 count) (number a) }
{
    packed_vector::i8x16_shr_u(a, count)
}

#[unsafe(no_mangle)]
pub extern "C" fn gatulefo_packed_i16x8_shr_u(a: V128, count: u32) -> V128
    ensures { number result ≡ unary 16 (ishr_u 16 count) (number a) }
{
    packed_vector::i16x8_shr_u(a, count)
}

#[unsafe(no_mangle)]
pub extern "C" fn gatulefo_packed_i32x4_shr_u(a: V128, count: u32) -> V128
    ensures { number result ≡ unary 32 (ishr_u 32 count) (number a) }
{
    packed_vector::i32x4_shr_u(a, count)
}

#[unsafe(no_mangle)]
pub extern "C" fn gatulefo_packed_i64x2_shr_u(a: V128, count: u32) -> V128
    ensures { number result ≡ unary 64 (ishr_u 64 count) (number a) }
{
    packed_vector::i64x2_shr_u(a, count)
}

#[unsafe(no_mangle)]
pub extern "C" fn gatulefo_packed_i8x16_all_true(a: V128) -> bool
    ensures { cond result 1 0 ≡ all_true 8 (number a) }
{
    packed_vector::i8x16_all_true(a)
}

#[unsafe(no_mangle)]
pub extern "C" fn gatulefo_packed_i16x8_all_true(a: V128) -> bool
    ensures { cond result 1 0 ≡ all_true 16 (number a) }
{
    packed_vector::i16x8_all_true(a)
}

#[unsafe(no_mangle)]
pub extern "C" fn gatulefo_packed_i32x4_all_true(a: V128) -> bool
    ensures { cond result 1 0 ≡ all_true 32 (number a) }
{
    packed_vector::i32x4_all_true(a)
}

#[unsafe(no_mangle)]
pub extern "C" fn gatulefo_packed_i64x2_all_true(a: V128) -> bool
    ensures { cond result 1 0 ≡ all_true 64 (number a) }
{
    packed_vector::i64x2_all_true(a)
}

#[unsafe(no_mangle)]
pub extern "C" fn gatulefo_packed_i8x16_bitmask(a: V128) -> u32
    ensures { result ≡ bitmask 8 (number a) }
{
    packed_vector::i8x16_bitmask(a)
}

#[unsafe(no_mangle)]
pub extern "C" fn gatulefo_packed_i16x8_bitmask(a: V128) -> u32
    ensures { result ≡ bitmask 16 (number a) }
{
    packed_vector::i16x8_bitmask(a)
}

#[unsafe(no_mangle)]
pub extern "C" fn gatulefo_packed_i32x4_bitmask(a: V128) -> u32
    ensures { result ≡ bitmask 32 (number a) }
{
    packed_vector::i32x4_bitmask(a)
}

#[unsafe(no_mangle)]
pub extern "C" fn gatulefo_packed_i64x2_bitmask(a: V128) -> u32
    ensures { result ≡ bitmask 64 (number a) }
{
    packed_vector::i64x2_bitmask(a)
}

#[unsafe(no_mangle)]
pub extern "C" fn gatulefo_packed_v128_any_true(a: V128) -> bool
    ensures { cond result 1 0 ≡ any_true (number a) }
{
    packed_vector::v128_any_true(a)
}
