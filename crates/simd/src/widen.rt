// Lanes of one width from those of another: extending, extended products and sums, the dot product, narrowing, and what the widening loads do with
// their bits.
ghost use Rattle.std.specs.Prelude.{◌≡◌, ℕ, ◌*◌, ◌^◌, ◌<◌, map};
ghost use Rattle.standard.specs.Integer.{extend_u, extend_s, narrow_u, narrow_s};
ghost use Rattle.standard.specs.Lanes.{joined, lanes, low_half, high_half};
ghost use Rattle.standard.specs.Vector.{extend, extmul, extadd_pairwise, dot, narrow, widen};
ghost use Rattle.lane_width.specs.Widen.{half_of};
ghost use Rattle.simd.specs.Gives.{Gives};
ghost use Rattle.simd.specs.Halved.{IsHalved};
ghost use Rattle.simd.specs.Number.{number};

use crate::lanes::at_each;
use crate::{Lanes, V128};
use lane_width::{Double, Narrows, dot, extadd_s, extadd_u, half};

// What holds of a lane of a width l and one of twice that, at every width there is.
impl V128 {
    // From lanes of 8 and of 16 bits.
    fn widen<L: Lanes, M: Lanes, F: Fn(L) -> M>(bits: u64, f: F) -> V128
        requires callable { F.IsAlwaysCallable f }
        requires alike { M.COUNT ≡ L.COUNT }
        requires double { M.width ≡ 2 * L.width }
        requires halves { IsHalved L.width }
        ensures { (sx : ℕ → ℕ → ℕ → ℕ) → Gives L.number M.number (F.post f) (sx L.width (2 * L.width)) → number result ≡ widen sx L.width bits }
    {
        M::of_places(at_each::<L, M, F>(V128 { lo: bits, hi: 0 }, f))
    }

    fn widen32<F: Fn(u32) -> u64>(bits: u64, f: F) -> V128
        requires { F.IsAlwaysCallable f }
        ensures { (sx : ℕ → ℕ → ℕ → ℕ) → Gives (λ x. x) (λ x. x) (F.post f) (sx 32 64) → number result ≡ widen sx 32 bits }
    {
        V128 {
            lo: f(bits.low()),
            hi: f(bits.high()),
        }
    }

    fn extend<L: Lanes, M: Lanes, F: Fn(L) -> M>(self, high: bool, f: F) -> V128
        requires callable { F.IsAlwaysCallable f }
        requires alike { M.COUNT ≡ L.COUNT }
        requires double { M.width ≡ 2 * L.width }
        requires halves { IsHalved L.width }
        ensures { (sx : ℕ → ℕ → ℕ → ℕ) → Gives L.number M.number (F.post f) (sx L.width (2 * L.width)) → number result ≡ extend (half_of high) sx L.width (number self) }
    {
        V128::widen(half(self.lo, self.hi, high), f)
    }

    fn extend32<F: Fn(u32) -> u64>(self, high: bool, f: F) -> V128
        requires { F.IsAlwaysCallable f }
        ensures { (sx : ℕ → ℕ → ℕ → ℕ) → Gives (λ x. x) (λ x. x) (F.post f) (sx 32 64) → number result ≡ extend (half_of high) sx 32 (number self) }
    {
        V128::widen32(half(self.lo, self.hi, high), f)
    }

    // The lanes, narrowed to a half.
    fn narrowed<L: Lanes, M: Lanes, F: Fn(L) -> M>(self, f: F) -> u64
        requires callable { F.IsAlwaysCallable f }
        requires alike { M.COUNT ≡ L.COUNT }
        requires double { L.width ≡ 2 * M.width }
        requires halves { IsHalved M.width }
        ensures { (g : ℕ → ℕ) → ((a : ℕ) → g a < 2 ^ M.width) → Gives L.number M.number (F.post f) g → result ≡ joined M.width (map g (lanes L.width (number self))) }
    {
        M::of_places(at_each::<L, M, F>(self, f)).lo
    }

    fn narrow<L: Lanes, M: Lanes, F: Fn(L) -> M + Copy>(self, high: V128, f: F) -> V128
        requires callable { F.IsAlwaysCallable f }
        requires alike { M.COUNT ≡ L.COUNT }
        requires double { L.width ≡ 2 * M.width }
        requires halves { IsHalved M.width }
        ensures { (sx : ℕ → ℕ → ℕ → ℕ) → ((a : ℕ) → sx L.width M.width a < 2 ^ M.width) → Gives L.number M.number (F.post f) (sx L.width M.width) → number result ≡ narrow sx M.width (number self) (number high) }
    {
        V128 {
            lo: self.narrowed(f),
            hi: high.narrowed(f),
        }
    }

    pub fn i16x8_extend_low_i8x16_s(self) -> V128
        ensures { number result ≡ extend low_half extend_s 8 (number self) }
    {
        self.extend(false, u16::extend_s)
    }

    pub fn i16x8_extend_low_i8x16_u(self) -> V128
        ensures { number result ≡ extend low_half extend_u 8 (number self) }
    {
        self.extend(false, u16::extend_u)
    }

    pub fn i32x4_extend_low_i16x8_s(self) -> V128
        ensures { number result ≡ extend low_half extend_s 16 (number self) }
    {
        self.extend(false, u32::extend_s)
    }

    pub fn i32x4_extend_low_i16x8_u(self) -> V128
        ensures { number result ≡ extend low_half extend_u 16 (number self) }
    {
        self.extend(false, u32::extend_u)
    }

    pub fn i64x2_extend_low_i32x4_s(self) -> V128
        ensures { number result ≡ extend low_half extend_s 32 (number self) }
    {
        self.extend32(false, u64::extend_s)
    }

    pub fn i64x2_extend_low_i32x4_u(self) -> V128
        ensures { number result ≡ extend low_half extend_u 32 (number self) }
    {
        self.extend32(false, u64::extend_u)
    }

    pub fn i16x8_extend_high_i8x16_s(self) -> V128
        ensures { number result ≡ extend high_half extend_s 8 (number self) }
    {
        self.extend(true, u16::extend_s)
    }

    pub fn i16x8_extend_high_i8x16_u(self) -> V128
        ensures { number result ≡ extend high_half extend_u 8 (number self) }
    {
        self.extend(true, u16::extend_u)
    }

    pub fn i32x4_extend_high_i16x8_s(self) -> V128
        ensures { number result ≡ extend high_half extend_s 16 (number self) }
    {
        self.extend(true, u32::extend_s)
    }

    pub fn i32x4_extend_high_i16x8_u(self) -> V128
        ensures { number result ≡ extend high_half extend_u 16 (number self) }
    {
        self.extend(true, u32::extend_u)
    }

    pub fn i64x2_extend_high_i32x4_s(self) -> V128
        ensures { number result ≡ extend high_half extend_s 32 (number self) }
    {
        self.extend32(true, u64::extend_s)
    }

    pub fn i64x2_extend_high_i32x4_u(self) -> V128
        ensures { number result ≡ extend high_half extend_u 32 (number self) }
    {
        self.extend32(true, u64::extend_u)
    }

    pub fn i16x8_extmul_low_i8x16_s(self, rhs: V128) -> V128
        ensures { number result ≡ extmul low_half extend_s 8 (number self) (number rhs) }
    {
        self.i16x8_extend_low_i8x16_s()
            .i16x8_mul(rhs.i16x8_extend_low_i8x16_s())
    }

    pub fn i16x8_extmul_low_i8x16_u(self, rhs: V128) -> V128
        ensures { number result ≡ extmul low_half extend_u 8 (number self) (number rhs) }
    {
        self.i16x8_extend_low_i8x16_u()
            .i16x8_mul(rhs.i16x8_extend_low_i8x16_u())
    }

    pub fn i32x4_extmul_low_i16x8_s(self, rhs: V128) -> V128
        ensures { number result ≡ extmul low_half extend_s 16 (number self) (number rhs) }
    {
        self.i32x4_extend_low_i16x8_s()
            .i32x4_mul(rhs.i32x4_extend_low_i16x8_s())
    }

    pub fn i32x4_extmul_low_i16x8_u(self, rhs: V128) -> V128
        ensures { number result ≡ extmul low_half extend_u 16 (number self) (number rhs) }
    {
        self.i32x4_extend_low_i16x8_u()
            .i32x4_mul(rhs.i32x4_extend_low_i16x8_u())
    }

    pub fn i64x2_extmul_low_i32x4_s(self, rhs: V128) -> V128
        ensures { number result ≡ extmul low_half extend_s 32 (number self) (number rhs) }
    {
        self.i64x2_extend_low_i32x4_s()
            .i64x2_mul(rhs.i64x2_extend_low_i32x4_s())
    }

    pub fn i64x2_extmul_low_i32x4_u(self, rhs: V128) -> V128
        ensures { number result ≡ extmul low_half extend_u 32 (number self) (number rhs) }
    {
        self.i64x2_extend_low_i32x4_u()
            .i64x2_mul(rhs.i64x2_extend_low_i32x4_u())
    }

    pub fn i16x8_extmul_high_i8x16_s(self, rhs: V128) -> V128
        ensures { number result ≡ extmul high_half extend_s 8 (number self) (number rhs) }
    {
        self.i16x8_extend_high_i8x16_s()
            .i16x8_mul(rhs.i16x8_extend_high_i8x16_s())
    }

    pub fn i16x8_extmul_high_i8x16_u(self, rhs: V128) -> V128
        ensures { number result ≡ extmul high_half extend_u 8 (number self) (number rhs) }
    {
        self.i16x8_extend_high_i8x16_u()
            .i16x8_mul(rhs.i16x8_extend_high_i8x16_u())
    }

    pub fn i32x4_extmul_high_i16x8_s(self, rhs: V128) -> V128
        ensures { number result ≡ extmul high_half extend_s 16 (number self) (number rhs) }
    {
        self.i32x4_extend_high_i16x8_s()
            .i32x4_mul(rhs.i32x4_extend_high_i16x8_s())
    }

    pub fn i32x4_extmul_high_i16x8_u(self, rhs: V128) -> V128
        ensures { number result ≡ extmul high_half extend_u 16 (number self) (number rhs) }
    {
        self.i32x4_extend_high_i16x8_u()
            .i32x4_mul(rhs.i32x4_extend_high_i16x8_u())
    }

    pub fn i64x2_extmul_high_i32x4_s(self, rhs: V128) -> V128
        ensures { number result ≡ extmul high_half extend_s 32 (number self) (number rhs) }
    {
        self.i64x2_extend_high_i32x4_s()
            .i64x2_mul(rhs.i64x2_extend_high_i32x4_s())
    }

    pub fn i64x2_extmul_high_i32x4_u(self, rhs: V128) -> V128
        ensures { number result ≡ extmul high_half extend_u 32 (number self) (number rhs) }
    {
        self.i64x2_extend_high_i32x4_u()
            .i64x2_mul(rhs.i64x2_extend_high_i32x4_u())
    }

    pub fn i16x8_extadd_pairwise_i8x16_s(self) -> V128
        ensures { number result ≡ extadd_pairwise extend_s 8 (number self) }
    {
        self.unary(|a: u16| extadd_s(a))
    }

    pub fn i16x8_extadd_pairwise_i8x16_u(self) -> V128
        ensures { number result ≡ extadd_pairwise extend_u 8 (number self) }
    {
        self.unary(|a: u16| extadd_u(a))
    }

    pub fn i32x4_extadd_pairwise_i16x8_s(self) -> V128
        ensures { number result ≡ extadd_pairwise extend_s 16 (number self) }
    {
        self.unary(|a: u32| extadd_s(a))
    }

    pub fn i32x4_extadd_pairwise_i16x8_u(self) -> V128
        ensures { number result ≡ extadd_pairwise extend_u 16 (number self) }
    {
        self.unary(|a: u32| extadd_u(a))
    }

    // Over 32 places: over all 64, as in `binary32`, a real loop is left.
    pub fn i32x4_dot_i16x8_s(self, rhs: V128) -> V128
        ensures { number result ≡ dot 16 (number self) (number rhs) }
    {
        self.binary_over(rhs, 32, |a: u32, b| dot(a, b))
    }

    pub fn i8x16_narrow_i16x8_s(self, high: V128) -> V128
        ensures { number result ≡ narrow narrow_s 8 (number self) (number high) }
    {
        self.narrow(high, u16::narrow_s)
    }

    pub fn i8x16_narrow_i16x8_u(self, high: V128) -> V128
        ensures { number result ≡ narrow narrow_u 8 (number self) (number high) }
    {
        self.narrow(high, u16::narrow_u)
    }

    pub fn i16x8_narrow_i32x4_s(self, high: V128) -> V128
        ensures { number result ≡ narrow narrow_s 16 (number self) (number high) }
    {
        self.narrow(high, u32::narrow_s)
    }

    pub fn i16x8_narrow_i32x4_u(self, high: V128) -> V128
        ensures { number result ≡ narrow narrow_u 16 (number self) (number high) }
    {
        self.narrow(high, u32::narrow_u)
    }

    pub fn v128_widen8x8_s(bits: u64) -> V128
        ensures { number result ≡ widen extend_s 8 bits }
    {
        V128::widen(bits, u16::extend_s)
    }

    pub fn v128_widen8x8_u(bits: u64) -> V128
        ensures { number result ≡ widen extend_u 8 bits }
    {
        V128::widen(bits, u16::extend_u)
    }

    pub fn v128_widen16x4_s(bits: u64) -> V128
        ensures { number result ≡ widen extend_s 16 bits }
    {
        V128::widen(bits, u32::extend_s)
    }

    pub fn v128_widen16x4_u(bits: u64) -> V128
        ensures { number result ≡ widen extend_u 16 bits }
    {
        V128::widen(bits, u32::extend_u)
    }

    pub fn v128_widen32x2_s(bits: u64) -> V128
        ensures { number result ≡ widen extend_s 32 bits }
    {
        V128::widen32(bits, u64::extend_s)
    }

    pub fn v128_widen32x2_u(bits: u64) -> V128
        ensures { number result ≡ widen extend_u 32 bits }
    {
        V128::widen32(bits, u64::extend_u)
    }

    // What v128.load32_zero and v128.load64_zero give for these bits: the other lanes are 0.
    pub fn v128_low32_zero(bits: u32) -> V128
        ensures { number result ≡ extend_u 32 128 bits }
    {
        V128 {
            lo: bits as u64,
            hi: 0,
        }
    }

    pub fn v128_low64_zero(bits: u64) -> V128
        ensures { number result ≡ extend_u 64 128 bits }
    {
        V128 { lo: bits, hi: 0 }
    }
}
