// The relaxed instructions of WebAssembly 3.0 that are carried over, each as the Rust chooses: the plain operation, and the two dots. What 3.0 allows, and
// that each answer is among it, but for dots that meet four −128, is the crate `lane_relaxed_theorems`.
ghost use Rattle.simd.specs.Number.{number};
ghost use Rattle.std.specs.Float.{binary32, binary64};
ghost use Rattle.standard.specs.Relaxed.{relaxed_swizzle, relaxed_laneselect, relaxed_q15mulr, relaxed_min, relaxed_max, relaxed_dot, relaxed_dot_add};
ghost use Rattle.std.specs.Prelude.{◌≡◌};

use simd::V128;

#[unsafe(no_mangle)]
pub extern "C" fn gatulefo_i16x8_relaxed_dot_i8x16_i7x16_s(lhs: V128, rhs: V128) -> V128
    ensures { number result ≡ relaxed_dot (number lhs) (number rhs) }
{
    lhs.i16x8_relaxed_dot_i8x16_i7x16_s(rhs)
}

#[unsafe(no_mangle)]
pub extern "C" fn gatulefo_i32x4_relaxed_dot_i8x16_i7x16_add_s(
    lhs: V128,
    rhs: V128,
    c: V128,
) -> V128
    ensures { number result ≡ relaxed_dot_add (number lhs) (number rhs) (number c) }
{
    lhs.i32x4_relaxed_dot_i8x16_i7x16_add_s(rhs, c)
}

#[unsafe(no_mangle)]
pub extern "C" fn gatulefo_i8x16_relaxed_swizzle(a: V128, s: V128) -> V128
    ensures { number result ≡ relaxed_swizzle (number a) (number s) }
{
    a.i8x16_relaxed_swizzle(s)
}

#[unsafe(no_mangle)]
pub extern "C" fn gatulefo_i8x16_relaxed_laneselect(a: V128, b: V128, c: V128) -> V128
    ensures { number result ≡ relaxed_laneselect (number a) (number b) (number c) }
{
    a.i8x16_relaxed_laneselect(b, c)
}

#[unsafe(no_mangle)]
pub extern "C" fn gatulefo_i16x8_relaxed_laneselect(a: V128, b: V128, c: V128) -> V128
    ensures { number result ≡ relaxed_laneselect (number a) (number b) (number c) }
{
    a.i16x8_relaxed_laneselect(b, c)
}

#[unsafe(no_mangle)]
pub extern "C" fn gatulefo_i32x4_relaxed_laneselect(a: V128, b: V128, c: V128) -> V128
    ensures { number result ≡ relaxed_laneselect (number a) (number b) (number c) }
{
    a.i32x4_relaxed_laneselect(b, c)
}

#[unsafe(no_mangle)]
pub extern "C" fn gatulefo_i64x2_relaxed_laneselect(a: V128, b: V128, c: V128) -> V128
    ensures { number result ≡ relaxed_laneselect (number a) (number b) (number c) }
{
    a.i64x2_relaxed_laneselect(b, c)
}

#[unsafe(no_mangle)]
pub extern "C" fn gatulefo_f32x4_relaxed_min(lhs: V128, rhs: V128) -> V128
    ensures { number result ≡ relaxed_min binary32 (number lhs) (number rhs) }
{
    lhs.f32x4_relaxed_min(rhs)
}

#[unsafe(no_mangle)]
pub extern "C" fn gatulefo_f32x4_relaxed_max(lhs: V128, rhs: V128) -> V128
    ensures { number result ≡ relaxed_max binary32 (number lhs) (number rhs) }
{
    lhs.f32x4_relaxed_max(rhs)
}

#[unsafe(no_mangle)]
pub extern "C" fn gatulefo_f64x2_relaxed_min(lhs: V128, rhs: V128) -> V128
    ensures { number result ≡ relaxed_min binary64 (number lhs) (number rhs) }
{
    lhs.f64x2_relaxed_min(rhs)
}

#[unsafe(no_mangle)]
pub extern "C" fn gatulefo_f64x2_relaxed_max(lhs: V128, rhs: V128) -> V128
    ensures { number result ≡ relaxed_max binary64 (number lhs) (number rhs) }
{
    lhs.f64x2_relaxed_max(rhs)
}

#[unsafe(no_mangle)]
pub extern "C" fn gatulefo_i16x8_relaxed_q15mulr_s(a: V128, b: V128) -> V128
    ensures { number result ≡ relaxed_q15mulr (number a) (number b) }
{
    a.i16x8_relaxed_q15mulr_s(b)
}
