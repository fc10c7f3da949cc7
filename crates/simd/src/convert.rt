// Lanes in another format: floats rounded to whole numbers, lanes converted between whole numbers and floats and between the float formats. The conversions
// between 32 and 64 bits take the low lanes, or leave zeros above.
ghost use Rattle.std.specs.Prelude.{◌≡◌, ℕ};
ghost use Rattle.std.specs.Float.{binary32, binary64};
ghost use Rattle.standard.specs.Convert.{fceil, ffloor, ftrunc, fnearest, demote, promote, convert_u, convert_s, trunc_sat_u, trunc_sat_s};
ghost use Rattle.standard.specs.Lanes.{unary};
ghost use Rattle.standard.specs.Vector.{convert_low, convert_zero};
ghost use Rattle.simd.specs.Number.{number};

use crate::V128;
use array_convert::*;

impl V128 {
    fn format32<F: Fn(u32) -> u32>(self, f: F) -> V128
        requires { F.IsAlwaysCallable f }
        ensures { (g : ℕ → ℕ) → ((x r : ℕ) → F.post f x r → r ≡ g x) → number result ≡ unary 32 g (number self) }
    {
        V128::join32(array_convert::each32(f, self.lanes32()))
    }

    fn format_low<F: Fn(u32) -> u64>(self, f: F) -> V128
        requires { F.IsAlwaysCallable f }
        ensures { (g : ℕ → ℕ) → ((x r : ℕ) → F.post f x r → r ≡ g x) → number result ≡ convert_low g (number self) }
    {
        let a = array_convert::low(f, self.lanes32());
        V128 { lo: a[0], hi: a[1] }
    }

    fn format_zero<F: Fn(u64) -> u32>(self, f: F) -> V128
        requires { F.IsAlwaysCallable f }
        ensures { (g : ℕ → ℕ) → ((x r : ℕ) → F.post f x r → r ≡ g x) → number result ≡ convert_zero g (number self) }
    {
        let a = array_convert::zero(f, [self.lo, self.hi]);
        V128 { lo: a[0], hi: a[1] }
    }

    pub fn f32x4_ceil(self) -> V128
        ensures { number result ≡ unary 32 (fceil binary32) (number self) }
    {
        self.format32(fceil)
    }

    pub fn f64x2_ceil(self) -> V128
        ensures { number result ≡ unary 64 (fceil binary64) (number self) }
    {
        self.unary(fceil::<u64>)
    }

    pub fn f32x4_floor(self) -> V128
        ensures { number result ≡ unary 32 (ffloor binary32) (number self) }
    {
        self.format32(ffloor)
    }

    pub fn f64x2_floor(self) -> V128
        ensures { number result ≡ unary 64 (ffloor binary64) (number self) }
    {
        self.unary(ffloor::<u64>)
    }

    pub fn f32x4_trunc(self) -> V128
        ensures { number result ≡ unary 32 (ftrunc binary32) (number self) }
    {
        self.format32(ftrunc)
    }

    pub fn f64x2_trunc(self) -> V128
        ensures { number result ≡ unary 64 (ftrunc binary64) (number self) }
    {
        self.unary(ftrunc::<u64>)
    }

    pub fn f32x4_nearest(self) -> V128
        ensures { number result ≡ unary 32 (fnearest binary32) (number self) }
    {
        self.format32(fnearest)
    }

    pub fn f64x2_nearest(self) -> V128
        ensures { number result ≡ unary 64 (fnearest binary64) (number self) }
    {
        self.unary(fnearest::<u64>)
    }

    pub fn f32x4_convert_i32x4_s(self) -> V128
        ensures { number result ≡ unary 32 (convert_s binary32) (number self) }
    {
        V128::join32(array_convert::convert_s32x4(self.lanes32()))
    }

    pub fn f32x4_convert_i32x4_u(self) -> V128
        ensures { number result ≡ unary 32 (convert_u binary32) (number self) }
    {
        V128::join32(array_convert::convert_u32x4(self.lanes32()))
    }

    pub fn i32x4_trunc_sat_f32x4_s(self) -> V128
        ensures { number result ≡ unary 32 (trunc_sat_s binary32) (number self) }
    {
        V128::join32(array_convert::trunc_sat_s32x4(self.lanes32()))
    }

    pub fn i32x4_trunc_sat_f32x4_u(self) -> V128
        ensures { number result ≡ unary 32 (trunc_sat_u binary32) (number self) }
    {
        V128::join32(array_convert::trunc_sat_u32x4(self.lanes32()))
    }

    pub fn f64x2_convert_low_i32x4_s(self) -> V128
        ensures { number result ≡ convert_low (convert_s binary64) (number self) }
    {
        self.format_low(convert_s64)
    }

    pub fn f64x2_convert_low_i32x4_u(self) -> V128
        ensures { number result ≡ convert_low (convert_u binary64) (number self) }
    {
        self.format_low(convert_u64)
    }

    pub fn f64x2_promote_low_f32x4(self) -> V128
        ensures { number result ≡ convert_low promote (number self) }
    {
        self.format_low(promote)
    }

    pub fn i32x4_trunc_sat_f64x2_s_zero(self) -> V128
        ensures { number result ≡ convert_zero (trunc_sat_s binary64) (number self) }
    {
        self.format_zero(trunc_sat_s64)
    }

    pub fn i32x4_trunc_sat_f64x2_u_zero(self) -> V128
        ensures { number result ≡ convert_zero (trunc_sat_u binary64) (number self) }
    {
        self.format_zero(trunc_sat_u64)
    }

    pub fn f32x4_demote_f64x2_zero(self) -> V128
        ensures { number result ≡ convert_zero demote (number self) }
    {
        self.format_zero(demote)
    }
}
