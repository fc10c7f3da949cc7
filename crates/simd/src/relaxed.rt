// The relaxed instructions of WebAssembly 3.0 that are carried over, each as the Rust chooses: the plain operation, and the two dots. What 3.0 allows, and
// that each answer is among it, but for dots that meet four −128, is the crate `lane_relaxed_theorems`.
ghost use Rattle.std.specs.Prelude.{◌≡◌};
ghost use Rattle.std.specs.Float.{binary32, binary64};
ghost use Rattle.standard.specs.Relaxed.{relaxed_swizzle, relaxed_laneselect, relaxed_q15mulr, relaxed_min, relaxed_max, relaxed_dot, relaxed_dot_add};
ghost use Rattle.simd.specs.Number.{number};

use crate::V128;
use lane_width::dot;

impl V128 {
    pub fn i8x16_relaxed_swizzle(self, s: V128) -> V128
        ensures { number result ≡ relaxed_swizzle (number self) (number s) }
    {
        self.i8x16_swizzle(s)
    }

    pub fn i8x16_relaxed_laneselect(self, b: V128, c: V128) -> V128
        ensures { number result ≡ relaxed_laneselect (number self) (number b) (number c) }
    {
        self.v128_bitselect(b, c)
    }

    pub fn i16x8_relaxed_laneselect(self, b: V128, c: V128) -> V128
        ensures { number result ≡ relaxed_laneselect (number self) (number b) (number c) }
    {
        self.v128_bitselect(b, c)
    }

    pub fn i32x4_relaxed_laneselect(self, b: V128, c: V128) -> V128
        ensures { number result ≡ relaxed_laneselect (number self) (number b) (number c) }
    {
        self.v128_bitselect(b, c)
    }

    pub fn i64x2_relaxed_laneselect(self, b: V128, c: V128) -> V128
        ensures { number result ≡ relaxed_laneselect (number self) (number b) (number c) }
    {
        self.v128_bitselect(b, c)
    }

    pub fn f32x4_relaxed_min(self, rhs: V128) -> V128
        ensures { number result ≡ relaxed_min binary32 (number self) (number rhs) }
    {
        self.f32x4_min(rhs)
    }

    pub fn f32x4_relaxed_max(self, rhs: V128) -> V128
        ensures { number result ≡ relaxed_max binary32 (number self) (number rhs) }
    {
        self.f32x4_max(rhs)
    }

    pub fn f64x2_relaxed_min(self, rhs: V128) -> V128
        ensures { number result ≡ relaxed_min binary64 (number self) (number rhs) }
    {
        self.f64x2_min(rhs)
    }

    pub fn f64x2_relaxed_max(self, rhs: V128) -> V128
        ensures { number result ≡ relaxed_max binary64 (number self) (number rhs) }
    {
        self.f64x2_max(rhs)
    }

    pub fn i16x8_relaxed_q15mulr_s(self, b: V128) -> V128
        ensures { number result ≡ relaxed_q15mulr (number self) (number b) }
    {
        self.i16x8_q15mulr_sat_s(b)
    }

    pub fn i16x8_relaxed_dot_i8x16_i7x16_s(self, rhs: V128) -> V128
        ensures { number result ≡ relaxed_dot (number self) (number rhs) }
    {
        self.binary(rhs, |a: u16, b| dot(a, b))
    }

    pub fn i32x4_relaxed_dot_i8x16_i7x16_add_s(self, rhs: V128, c: V128) -> V128
        ensures { number result ≡ relaxed_dot_add (number self) (number rhs) (number c) }
    {
        let dot = self.i16x8_relaxed_dot_i8x16_i7x16_s(rhs);
        let ext = dot.i32x4_extadd_pairwise_i16x8_s();
        ext.i32x4_add(c)
    }
}
