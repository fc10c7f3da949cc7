// Float lanes: the six comparisons, negation and absolute value on bits, pmin and pmax, arithmetic. Comparison is all ones or all zeros.
ghost use Rattle.simd.specs.Number.{number};
ghost use Rattle.std.specs.Float.{binary32, binary64};
ghost use Rattle.standard.specs.Float.{feq, fne, flt, fgt, fle, fge, fneg, fabs, fpmin, fpmax, fadd, fsub, fmul, fdiv, fmin, fmax};
ghost use Rattle.standard.specs.Lanes.{unary, binary};
ghost use Rattle.std.specs.Prelude.{◌≡◌};

use simd::V128;

#[unsafe(no_mangle)]
pub extern "C" fn gatulefo_f32x4_min(lhs: V128, rhs: V128) -> V128
    ensures { number result ≡ binary 32 (fmin binary32) (number lhs) (number rhs) }
{
    lhs.f32x4_min(rhs)
}

#[unsafe(no_mangle)]
pub extern "C" fn gatulefo_f64x2_min(lhs: V128, rhs: V128) -> V128
    ensures { number result ≡ binary 64 (fmin binary64) (number lhs) (number rhs) }
{
    lhs.f64x2_min(rhs)
}

#[unsafe(no_mangle)]
pub extern "C" fn gatulefo_f32x4_max(lhs: V128, rhs: V128) -> V128
    ensures { number result ≡ binary 32 (fmax binary32) (number lhs) (number rhs) }
{
    lhs.f32x4_max(rhs)
}

#[unsafe(no_mangle)]
pub extern "C" fn gatulefo_f64x2_max(lhs: V128, rhs: V128) -> V128
    ensures { number result ≡ binary 64 (fmax binary64) (number lhs) (number rhs) }
{
    lhs.f64x2_max(rhs)
}

#[unsafe(no_mangle)]
pub extern "C" fn gatulefo_f32x4_pmin(lhs: V128, rhs: V128) -> V128
    ensures { number result ≡ binary 32 (fpmin binary32) (number lhs) (number rhs) }
{
    lhs.f32x4_pmin(rhs)
}

#[unsafe(no_mangle)]
pub extern "C" fn gatulefo_f64x2_pmin(lhs: V128, rhs: V128) -> V128
    ensures { number result ≡ binary 64 (fpmin binary64) (number lhs) (number rhs) }
{
    lhs.f64x2_pmin(rhs)
}

#[unsafe(no_mangle)]
pub extern "C" fn gatulefo_f32x4_pmax(lhs: V128, rhs: V128) -> V128
    ensures { number result ≡ binary 32 (fpmax binary32) (number lhs) (number rhs) }
{
    lhs.f32x4_pmax(rhs)
}

#[unsafe(no_mangle)]
pub extern "C" fn gatulefo_f64x2_pmax(lhs: V128, rhs: V128) -> V128
    ensures { number result ≡ binary 64 (fpmax binary64) (number lhs) (number rhs) }
{
    lhs.f64x2_pmax(rhs)
}

#[unsafe(no_mangle)]
pub extern "C" fn gatulefo_f32x4_add(lhs: V128, rhs: V128) -> V128
    ensures { number result ≡ binary 32 (fadd binary32) (number lhs) (number rhs) }
{
    lhs.f32x4_add(rhs)
}

#[unsafe(no_mangle)]
pub extern "C" fn gatulefo_f64x2_add(lhs: V128, rhs: V128) -> V128
    ensures { number result ≡ binary 64 (fadd binary64) (number lhs) (number rhs) }
{
    lhs.f64x2_add(rhs)
}

#[unsafe(no_mangle)]
pub extern "C" fn gatulefo_f32x4_sub(lhs: V128, rhs: V128) -> V128
    ensures { number result ≡ binary 32 (fsub binary32) (number lhs) (number rhs) }
{
    lhs.f32x4_sub(rhs)
}

#[unsafe(no_mangle)]
pub extern "C" fn gatulefo_f64x2_sub(lhs: V128, rhs: V128) -> V128
    ensures { number result ≡ binary 64 (fsub binary64) (number lhs) (number rhs) }
{
    lhs.f64x2_sub(rhs)
}

#[unsafe(no_mangle)]
pub extern "C" fn gatulefo_f32x4_div(lhs: V128, rhs: V128) -> V128
    ensures { number result ≡ binary 32 (fdiv binary32) (number lhs) (number rhs) }
{
    lhs.f32x4_div(rhs)
}

#[unsafe(no_mangle)]
pub extern "C" fn gatulefo_f64x2_div(lhs: V128, rhs: V128) -> V128
    ensures { number result ≡ binary 64 (fdiv binary64) (number lhs) (number rhs) }
{
    lhs.f64x2_div(rhs)
}

#[unsafe(no_mangle)]
pub extern "C" fn gatulefo_f32x4_mul(lhs: V128, rhs: V128) -> V128
    ensures { number result ≡ binary 32 (fmul binary32) (number lhs) (number rhs) }
{
    lhs.f32x4_mul(rhs)
}

#[unsafe(no_mangle)]
pub extern "C" fn gatulefo_f64x2_mul(lhs: V128, rhs: V128) -> V128
    ensures { number result ≡ binary 64 (fmul binary64) (number lhs) (number rhs) }
{
    lhs.f64x2_mul(rhs)
}

#[unsafe(no_mangle)]
pub extern "C" fn gatulefo_f32x4_neg(v: V128) -> V128
    ensures { number result ≡ unary 32 (fneg binary32) (number v) }
{
    v.f32x4_neg()
}

#[unsafe(no_mangle)]
pub extern "C" fn gatulefo_f64x2_neg(v: V128) -> V128
    ensures { number result ≡ unary 64 (fneg binary64) (number v) }
{
    v.f64x2_neg()
}

#[unsafe(no_mangle)]
pub extern "C" fn gatulefo_f32x4_abs(v: V128) -> V128
    ensures { number result ≡ unary 32 (fabs binary32) (number v) }
{
    v.f32x4_abs()
}

#[unsafe(no_mangle)]
pub extern "C" fn gatulefo_f64x2_abs(v: V128) -> V128
    ensures { number result ≡ unary 64 (fabs binary64) (number v) }
{
    v.f64x2_abs()
}

#[unsafe(no_mangle)]
pub extern "C" fn gatulefo_f32x4_eq(lhs: V128, rhs: V128) -> V128
    ensures { number result ≡ binary 32 (feq binary32) (number lhs) (number rhs) }
{
    lhs.f32x4_eq(rhs)
}

#[unsafe(no_mangle)]
pub extern "C" fn gatulefo_f64x2_eq(lhs: V128, rhs: V128) -> V128
    ensures { number result ≡ binary 64 (feq binary64) (number lhs) (number rhs) }
{
    lhs.f64x2_eq(rhs)
}

#[unsafe(no_mangle)]
pub extern "C" fn gatulefo_f32x4_ne(lhs: V128, rhs: V128) -> V128
    ensures { number result ≡ binary 32 (fne binary32) (number lhs) (number rhs) }
{
    lhs.f32x4_ne(rhs)
}

#[unsafe(no_mangle)]
pub extern "C" fn gatulefo_f64x2_ne(lhs: V128, rhs: V128) -> V128
    ensures { number result ≡ binary 64 (fne binary64) (number lhs) (number rhs) }
{
    lhs.f64x2_ne(rhs)
}

#[unsafe(no_mangle)]
pub extern "C" fn gatulefo_f32x4_lt(lhs: V128, rhs: V128) -> V128
    ensures { number result ≡ binary 32 (flt binary32) (number lhs) (number rhs) }
{
    lhs.f32x4_lt(rhs)
}

#[unsafe(no_mangle)]
pub extern "C" fn gatulefo_f64x2_lt(lhs: V128, rhs: V128) -> V128
    ensures { number result ≡ binary 64 (flt binary64) (number lhs) (number rhs) }
{
    lhs.f64x2_lt(rhs)
}

#[unsafe(no_mangle)]
pub extern "C" fn gatulefo_f32x4_le(lhs: V128, rhs: V128) -> V128
    ensures { number result ≡ binary 32 (fle binary32) (number lhs) (number rhs) }
{
    lhs.f32x4_le(rhs)
}

#[unsafe(no_mangle)]
pub extern "C" fn gatulefo_f64x2_le(lhs: V128, rhs: V128) -> V128
    ensures { number result ≡ binary 64 (fle binary64) (number lhs) (number rhs) }
{
    lhs.f64x2_le(rhs)
}

#[unsafe(no_mangle)]
pub extern "C" fn gatulefo_f32x4_gt(lhs: V128, rhs: V128) -> V128
    ensures { number result ≡ binary 32 (fgt binary32) (number lhs) (number rhs) }
{
    lhs.f32x4_gt(rhs)
}

#[unsafe(no_mangle)]
pub extern "C" fn gatulefo_f64x2_gt(lhs: V128, rhs: V128) -> V128
    ensures { number result ≡ binary 64 (fgt binary64) (number lhs) (number rhs) }
{
    lhs.f64x2_gt(rhs)
}

#[unsafe(no_mangle)]
pub extern "C" fn gatulefo_f32x4_ge(lhs: V128, rhs: V128) -> V128
    ensures { number result ≡ binary 32 (fge binary32) (number lhs) (number rhs) }
{
    lhs.f32x4_ge(rhs)
}

#[unsafe(no_mangle)]
pub extern "C" fn gatulefo_f64x2_ge(lhs: V128, rhs: V128) -> V128
    ensures { number result ≡ binary 64 (fge binary64) (number lhs) (number rhs) }
{
    lhs.f64x2_ge(rhs)
}
