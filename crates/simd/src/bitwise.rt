// Bitwise operations, on whole halves.
ghost use Rattle.std.specs.Prelude.{◌≡◌};
ghost use Rattle.standard.specs.Integer.{inot, iand, iandnot, ior, ixor, ibitselect};
ghost use Rattle.simd.specs.Number.{number};

use crate::V128;

impl V128 {
    pub fn v128_and(self, rhs: V128) -> V128
        ensures { number result ≡ iand 128 (number self) (number rhs) }
    {
        V128 {
            lo: self.lo & rhs.lo,
            hi: self.hi & rhs.hi,
        }
    }

    pub fn v128_or(self, rhs: V128) -> V128
        ensures { number result ≡ ior 128 (number self) (number rhs) }
    {
        V128 {
            lo: self.lo | rhs.lo,
            hi: self.hi | rhs.hi,
        }
    }

    pub fn v128_xor(self, rhs: V128) -> V128
        ensures { number result ≡ ixor 128 (number self) (number rhs) }
    {
        V128 {
            lo: self.lo ^ rhs.lo,
            hi: self.hi ^ rhs.hi,
        }
    }

    pub fn v128_not(self) -> V128
        ensures { number result ≡ inot 128 (number self) }
    {
        V128 {
            lo: !self.lo,
            hi: !self.hi,
        }
    }

    pub fn v128_andnot(self, rhs: V128) -> V128
        ensures { number result ≡ iandnot 128 (number self) (number rhs) }
    {
        self.v128_and(rhs.v128_not())
    }

    // The bits of `self` where `c` has ones, else those of `v2`.
    pub fn v128_bitselect(self, v2: V128, c: V128) -> V128
        ensures { number result ≡ ibitselect 128 (number self) (number v2) (number c) }
    {
        self.v128_and(c).v128_or(v2.v128_and(c.v128_not()))
    }
}
