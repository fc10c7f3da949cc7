// Float lanes: the six comparisons, negation and absolute value on bits, pmin and pmax, arithmetic. Comparison is all ones or all zeros.
ghost use Rattle.std.specs.Prelude.{◌≡◌, ℕ};
ghost use Rattle.std.specs.Float.{binary32, binary64};
ghost use Rattle.standard.specs.Float.{feq, fne, flt, fgt, fle, fge, fneg, fabs, fpmin, fpmax, fadd, fsub, fmul, fdiv, fmin, fmax};
ghost use Rattle.standard.specs.Lanes.{unary, binary};
ghost use Rattle.simd.specs.Gives.{GivesOfTwo};
ghost use Rattle.simd.specs.Number.{number};

use crate::V128;
use array_lanewise_float::*;
use lane_float::{fabs, fneg};
use lane_float_arithmetic::*;

impl V128 {
    // Lanes of 64 bits, too, go over idle places: a division alone takes longer than they do.
    fn arithmetic64<F: Fn(u64, u64) -> u64>(self, rhs: V128, f: F) -> V128
        requires { F.IsAlwaysCallable f }
        ensures { (g : ℕ → ℕ → ℕ) → GivesOfTwo (λ x. x) (F.post f) g → number result ≡ binary 64 g (number self) (number rhs) }
    {
        let r = pairs64(f, self.lo, self.hi, rhs.lo, rhs.hi);
        V128 { lo: r[0], hi: r[1] }
    }

    pub fn f32x4_eq(self, rhs: V128) -> V128
        ensures { number result ≡ binary 32 (feq binary32) (number self) (number rhs) }
    {
        self.binary(rhs, eq::<u32>)
    }

    pub fn f64x2_eq(self, rhs: V128) -> V128
        ensures { number result ≡ binary 64 (feq binary64) (number self) (number rhs) }
    {
        self.binary(rhs, eq::<u64>)
    }

    pub fn f32x4_ne(self, rhs: V128) -> V128
        ensures { number result ≡ binary 32 (fne binary32) (number self) (number rhs) }
    {
        self.binary(rhs, ne::<u32>)
    }

    pub fn f64x2_ne(self, rhs: V128) -> V128
        ensures { number result ≡ binary 64 (fne binary64) (number self) (number rhs) }
    {
        self.binary(rhs, ne::<u64>)
    }

    pub fn f32x4_lt(self, rhs: V128) -> V128
        ensures { number result ≡ binary 32 (flt binary32) (number self) (number rhs) }
    {
        self.binary(rhs, lt::<u32>)
    }

    pub fn f64x2_lt(self, rhs: V128) -> V128
        ensures { number result ≡ binary 64 (flt binary64) (number self) (number rhs) }
    {
        self.binary(rhs, lt::<u64>)
    }

    pub fn f32x4_le(self, rhs: V128) -> V128
        ensures { number result ≡ binary 32 (fle binary32) (number self) (number rhs) }
    {
        self.binary(rhs, le::<u32>)
    }

    pub fn f64x2_le(self, rhs: V128) -> V128
        ensures { number result ≡ binary 64 (fle binary64) (number self) (number rhs) }
    {
        self.binary(rhs, le::<u64>)
    }

    pub fn f32x4_gt(self, rhs: V128) -> V128
        ensures { number result ≡ binary 32 (fgt binary32) (number self) (number rhs) }
    {
        self.binary(rhs, gt::<u32>)
    }

    pub fn f64x2_gt(self, rhs: V128) -> V128
        ensures { number result ≡ binary 64 (fgt binary64) (number self) (number rhs) }
    {
        self.binary(rhs, gt::<u64>)
    }

    pub fn f32x4_ge(self, rhs: V128) -> V128
        ensures { number result ≡ binary 32 (fge binary32) (number self) (number rhs) }
    {
        self.binary(rhs, ge::<u32>)
    }

    pub fn f64x2_ge(self, rhs: V128) -> V128
        ensures { number result ≡ binary 64 (fge binary64) (number self) (number rhs) }
    {
        self.binary(rhs, ge::<u64>)
    }

    pub fn f32x4_neg(self) -> V128
        ensures { number result ≡ unary 32 (fneg binary32) (number self) }
    {
        self.unary(fneg::<u32>)
    }

    pub fn f64x2_neg(self) -> V128
        ensures { number result ≡ unary 64 (fneg binary64) (number self) }
    {
        self.unary(fneg::<u64>)
    }

    pub fn f32x4_abs(self) -> V128
        ensures { number result ≡ unary 32 (fabs binary32) (number self) }
    {
        self.unary(fabs::<u32>)
    }

    pub fn f64x2_abs(self) -> V128
        ensures { number result ≡ unary 64 (fabs binary64) (number self) }
    {
        self.unary(fabs::<u64>)
    }

    pub fn f32x4_pmin(self, rhs: V128) -> V128
        ensures { number result ≡ binary 32 (fpmin binary32) (number self) (number rhs) }
    {
        self.binary(rhs, pmin::<u32>)
    }

    pub fn f64x2_pmin(self, rhs: V128) -> V128
        ensures { number result ≡ binary 64 (fpmin binary64) (number self) (number rhs) }
    {
        self.binary(rhs, pmin::<u64>)
    }

    pub fn f32x4_pmax(self, rhs: V128) -> V128
        ensures { number result ≡ binary 32 (fpmax binary32) (number self) (number rhs) }
    {
        self.binary(rhs, pmax::<u32>)
    }

    pub fn f64x2_pmax(self, rhs: V128) -> V128
        ensures { number result ≡ binary 64 (fpmax binary64) (number self) (number rhs) }
    {
        self.binary(rhs, pmax::<u64>)
    }

    pub fn f32x4_min(self, rhs: V128) -> V128
        ensures { number result ≡ binary 32 (fmin binary32) (number self) (number rhs) }
    {
        self.binary_over(rhs, 32, fmin::<u32>)
    }

    pub fn f64x2_min(self, rhs: V128) -> V128
        ensures { number result ≡ binary 64 (fmin binary64) (number self) (number rhs) }
    {
        self.arithmetic64(rhs, fmin)
    }

    pub fn f32x4_max(self, rhs: V128) -> V128
        ensures { number result ≡ binary 32 (fmax binary32) (number self) (number rhs) }
    {
        self.binary_over(rhs, 32, fmax::<u32>)
    }

    pub fn f64x2_max(self, rhs: V128) -> V128
        ensures { number result ≡ binary 64 (fmax binary64) (number self) (number rhs) }
    {
        self.arithmetic64(rhs, fmax)
    }

    pub fn f32x4_add(self, rhs: V128) -> V128
        ensures { number result ≡ binary 32 (fadd binary32) (number self) (number rhs) }
    {
        self.binary_over(rhs, 32, fadd::<u32>)
    }

    pub fn f64x2_add(self, rhs: V128) -> V128
        ensures { number result ≡ binary 64 (fadd binary64) (number self) (number rhs) }
    {
        self.arithmetic64(rhs, fadd)
    }

    pub fn f32x4_sub(self, rhs: V128) -> V128
        ensures { number result ≡ binary 32 (fsub binary32) (number self) (number rhs) }
    {
        self.binary_over(rhs, 32, fsub::<u32>)
    }

    pub fn f64x2_sub(self, rhs: V128) -> V128
        ensures { number result ≡ binary 64 (fsub binary64) (number self) (number rhs) }
    {
        self.arithmetic64(rhs, fsub)
    }

    pub fn f32x4_div(self, rhs: V128) -> V128
        ensures { number result ≡ binary 32 (fdiv binary32) (number self) (number rhs) }
    {
        self.binary_over(rhs, 32, fdiv::<u32>)
    }

    pub fn f64x2_div(self, rhs: V128) -> V128
        ensures { number result ≡ binary 64 (fdiv binary64) (number self) (number rhs) }
    {
        self.arithmetic64(rhs, fdiv)
    }

    pub fn f32x4_mul(self, rhs: V128) -> V128
        ensures { number result ≡ binary 32 (fmul binary32) (number self) (number rhs) }
    {
        self.binary_over(rhs, 32, fmul::<u32>)
    }

    pub fn f64x2_mul(self, rhs: V128) -> V128
        ensures { number result ≡ binary 64 (fmul binary64) (number self) (number rhs) }
    {
        self.arithmetic64(rhs, fmul)
    }
}
