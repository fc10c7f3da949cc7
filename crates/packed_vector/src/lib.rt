// The packed forms of whole vectors: each half as one number, with the promise of the lane-by-lane operation of the same name (document 01, "The
// calculator (added)").
#![tactic(auto)]

ghost use Rattle.std.specs.Prelude.{ℕ, ◌≡◌, ◌<◌, ◌^◌, cond};
ghost use Rattle.standard.specs.Integer.{iadd, isub, ineg, ieq, iavgr_u, ipopcnt, ishl, ishr_u};
ghost use Rattle.standard.specs.Lanes.{unary, binary};
ghost use Rattle.standard.specs.Vector.{any_true, all_true, bitmask};
ghost use Rattle.packed_half.specs.Half.{Divides, half_unary, half_binary};
ghost use Rattle.simd.specs.Number.{number};

use packed_compare::*;
use packed_count::*;
use packed_half::masks::{Lanes8, Lanes16, Lanes32};
use packed_reduce::*;
use packed_shift::*;
use packed_sum::arithmetic::*;
use packed_sum::average::*;
use simd::V128;

// A packed form of each half: where every call of f gives f's operation on the lanes of a half, both halves give it on the lanes of the vector.
fn both_unary<F: Fn(u64) -> u64>(a: V128, f: F) -> V128
    requires { F.IsAlwaysCallable f }
    ensures { (w : ℕ) (g : ℕ → ℕ) → Divides w → ((x r : ℕ) → x < 2 ^ 64 → F.post f x r → r ≡ half_unary w g x) → number result ≡ unary w g (number a) }
{
    V128 {
        lo: f(a.lo),
        hi: f(a.hi),
    }
}

fn both_binary<F: Fn(u64, u64) -> u64>(a: V128, b: V128, f: F) -> V128
    requires { F.IsAlwaysCallable f }
    ensures { (w : ℕ) (g : ℕ → ℕ → ℕ) → Divides w → ((x y r : ℕ) → x < 2 ^ 64 → y < 2 ^ 64 → F.post f x y r → r ≡ half_binary w g x y) → number result ≡ binary w g (number a) (number b) }
{
    V128 {
        lo: f(a.lo, b.lo),
        hi: f(a.hi, b.hi),
    }
}

pub fn i8x16_add(a: V128, b: V128) -> V128
    ensures { number result ≡ binary 8 (iadd 8) (number a) (number b) }
{
    both_binary(a, b, add::<Lanes8>)
}

pub fn i16x8_add(a: V128, b: V128) -> V128
    ensures { number result ≡ binary 16 (iadd 16) (number a) (number b) }
{
    both_binary(a, b, add::<Lanes16>)
}

pub fn i32x4_add(a: V128, b: V128) -> V128
    ensures { number result ≡ binary 32 (iadd 32) (number a) (number b) }
{
    both_binary(a, b, add::<Lanes32>)
}

pub fn i64x2_add(a: V128, b: V128) -> V128
    ensures { number result ≡ binary 64 (iadd 64) (number a) (number b) }
{
    both_binary(a, b, add64)
}

pub fn i8x16_sub(a: V128, b: V128) -> V128
    ensures { number result ≡ binary 8 (isub 8) (number a) (number b) }
{
    both_binary(a, b, sub::<Lanes8>)
}

pub fn i16x8_sub(a: V128, b: V128) -> V128
    ensures { number result ≡ binary 16 (isub 16) (number a) (number b) }
{
    both_binary(a, b, sub::<Lanes16>)
}

pub fn i32x4_sub(a: V128, b: V128) -> V128
    ensures { number result ≡ binary 32 (isub 32) (number a) (number b) }
{
    both_binary(a, b, sub::<Lanes32>)
}

pub fn i64x2_sub(a: V128, b: V128) -> V128
    ensures { number result ≡ binary 64 (isub 64) (number a) (number b) }
{
    both_binary(a, b, sub64)
}

pub fn i8x16_eq(a: V128, b: V128) -> V128
    ensures { number result ≡ binary 8 (ieq 8) (number a) (number b) }
{
    both_binary(a, b, eq::<Lanes8>)
}

pub fn i16x8_eq(a: V128, b: V128) -> V128
    ensures { number result ≡ binary 16 (ieq 16) (number a) (number b) }
{
    both_binary(a, b, eq::<Lanes16>)
}

pub fn i32x4_eq(a: V128, b: V128) -> V128
    ensures { number result ≡ binary 32 (ieq 32) (number a) (number b) }
{
    both_binary(a, b, eq::<Lanes32>)
}

pub fn i64x2_eq(a: V128, b: V128) -> V128
    ensures { number result ≡ binary 64 (ieq 64) (number a) (number b) }
{
    both_binary(a, b, eq64)
}

pub fn i8x16_avgr_u(a: V128, b: V128) -> V128
    ensures { number result ≡ binary 8 (iavgr_u 8) (number a) (number b) }
{
    both_binary(a, b, avgr_u::<Lanes8>)
}

pub fn i16x8_avgr_u(a: V128, b: V128) -> V128
    ensures { number result ≡ binary 16 (iavgr_u 16) (number a) (number b) }
{
    both_binary(a, b, avgr_u::<Lanes16>)
}

pub fn i8x16_neg(a: V128) -> V128
    ensures { number result ≡ unary 8 (ineg 8) (number a) }
{
    both_unary(a, neg::<Lanes8>)
}

pub fn i16x8_neg(a: V128) -> V128
    ensures { number result ≡ unary 16 (ineg 16) (number a) }
{
    both_unary(a, neg::<Lanes16>)
}

pub fn i32x4_neg(a: V128) -> V128
    ensures { number result ≡ unary 32 (ineg 32) (number a) }
{
    both_unary(a, neg::<Lanes32>)
}

pub fn i64x2_neg(a: V128) -> V128
    ensures { number result ≡ unary 64 (ineg 64) (number a) }
{
    both_unary(a, neg64)
}

pub fn i8x16_shl(a: V128, count: u32) -> V128
    ensures { number result ≡ unary 8 (ishl 8 count) (number a) }
{
    both_unary(a, |half| shl::<Lanes8>(half, count))
}

pub fn i16x8_shl(a: V128, count: u32) -> V128
    ensures { number result ≡ unary 16 (ishl 16 count) (number a) }
{
    both_unary(a, |half| shl::<Lanes16>(half, count))
}

pub fn i32x4_shl(a: V128, count: u32) -> V128
    ensures { number result ≡ unary 32 (ishl 32 count) (number a) }
{
    both_unary(a, |half| shl::<Lanes32>(half, count))
}

pub fn i64x2_shl(a: V128, count: u32) -> V128
    ensures { number result ≡ unary 64 (ishl 64 count) (number a) }
{
    both_unary(a, |half| shl64(half, count))
}

pub fn i8x16_shr_u(a: V128, count: u32) -> V128
    ensures { number result ≡ unary 8 (ishr_u 8 count) (number a) }
{
    both_unary(a, |half| shr_u::<Lanes8>(half, count))
}

pub fn i16x8_shr_u(a: V128, count: u32) -> V128
    ensures { number result ≡ unary 16 (ishr_u 16 count) (number a) }
{
    both_unary(a, |half| shr_u::<Lanes16>(half, count))
}

pub fn i32x4_shr_u(a: V128, count: u32) -> V128
    ensures { number result ≡ unary 32 (ishr_u 32 count) (number a) }
{
    both_unary(a, |half| shr_u::<Lanes32>(half, count))
}

pub fn i64x2_shr_u(a: V128, count: u32) -> V128
    ensures { number result ≡ unary 64 (ishr_u 64 count) (number a) }
{
    both_unary(a, |half| shr_u64(half, count))
}

pub fn i8x16_popcnt(a: V128) -> V128
    ensures { number result ≡ unary 8 (ipopcnt 8) (number a) }
{
    both_unary(a, popcnt8)
}

pub fn v128_any_true(a: V128) -> bool
    ensures { cond result 1 0 ≡ any_true (number a) }
{
    any_true(a.lo | a.hi)
}

pub fn i8x16_all_true(a: V128) -> bool
    ensures { cond result 1 0 ≡ all_true 8 (number a) }
{
    all_true::<Lanes8>(a.lo) & all_true::<Lanes8>(a.hi)
}

pub fn i16x8_all_true(a: V128) -> bool
    ensures { cond result 1 0 ≡ all_true 16 (number a) }
{
    all_true::<Lanes16>(a.lo) & all_true::<Lanes16>(a.hi)
}

pub fn i32x4_all_true(a: V128) -> bool
    ensures { cond result 1 0 ≡ all_true 32 (number a) }
{
    all_true::<Lanes32>(a.lo) & all_true::<Lanes32>(a.hi)
}

pub fn i64x2_all_true(a: V128) -> bool
    ensures { cond result 1 0 ≡ all_true 64 (number a) }
{
    all_true64(a.lo) & all_true64(a.hi)
}

pub fn i8x16_bitmask(a: V128) -> u32
    ensures { result ≡ bitmask 8 (number a) }
{
    bitmask8(a.lo) | (bitmask8(a.hi) << 8)
}

pub fn i16x8_bitmask(a: V128) -> u32
    ensures { result ≡ bitmask 16 (number a) }
{
    bitmask16(a.lo) | (bitmask16(a.hi) << 4)
}

pub fn i32x4_bitmask(a: V128) -> u32
    ensures { result ≡ bitmask 32 (number a) }
{
    bitmask32(a.lo) | (bitmask32(a.hi) << 2)
}

pub fn i64x2_bitmask(a: V128) -> u32
    ensures { result ≡ bitmask 64 (number a) }
{
    bitmask64(a.lo) | (bitmask64(a.hi) << 1)
}
