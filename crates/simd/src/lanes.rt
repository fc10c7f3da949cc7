// The lanes of a vector at every width, and what is done at each of them. The Rust passes a closure to a loop over lanes, and so does this.
ghost use Rattle.std.specs.Prelude.{◌≡◌, ℕ, ◌++◌, ◌+◌, ◌/◌, ◌<◌, ◌≤◌, refl, List, map, take, replicate, length, get_or, set};
ghost use Rattle.standard.specs.Lanes.{joined, lanes, unary, binary, splat, extract, replace};
ghost use Rattle.standard.specs.Refusal.{at_lane};
ghost use Rattle.simd.specs.Answers.{vector_answer};
ghost use Rattle.simd.specs.Gives.{Gives, GivesOfTwo};
ghost use Rattle.simd.specs.Number.{number};

use crate::V128;
use lane_integer::Lane;
use standard_refusal::{Refusal, lane_below};

/// A lane of vectors. A loop over lanes runs over `COUNT` places: the lanes, then `idle` places whose results are dropped. One over the 16, 8 or 4 lanes alone is
/// unrolled before the compiler's vectoriser sees it, and is left as some ten shifts and masks a lane; one over 64 is vectorised, and its idle turns vanish
/// (docs/DECISIONS.md, "Idle places").
pub trait Lanes: Lane {
    ghost idle: { ℕ };

    ghost COUNT: { ℕ };

    const COUNT: usize;

    type Places: Drop;

    ghost listed: { Self.Places → List Self };

    fn places(v: V128) -> Self::Places
        ensures { map Self.number (listed result) ≡ lanes Self.width (number v) ++ replicate idle 0 };

    fn of_places(p: Self::Places) -> V128
        ensures { number result ≡ joined Self.width (take (128 / Self.width) (map Self.number (listed p))) };

    fn get(p: &Self::Places, i: usize) -> Self
        requires { i < length (listed p.now) }
        ensures { Self.number result ≡ get_or (map Self.number (listed p.now)) i 0 };

    fn set(p: &mut Self::Places, i: usize, x: Self)
        requires { i < length (listed p.old) }
        ensures { listed p.new ≡ set (listed p.old) i x };

    /// Every lane one number.
    fn splat(x: Self) -> V128
        ensures { number result ≡ splat Self.width (Self.number x) };

    /// The lane at a number, 0 where there is none.
    fn lane(v: V128, lane: u8) -> Self
        ensures { Self.number result ≡ extract Self.width (number v) lane };

    /// A vector with one lane changed.
    fn replace(v: V128, lane: u8, x: Self) -> Result<V128, Refusal>
        ensures { vector_answer result ≡ at_lane Self.width lane (replace Self.width (number v) lane (Self.number x)) };

    ghost counted: { COUNT ≡ 128 / Self.width + idle };
}

// What f makes of every place of a vector, the idle ones too. By index through `get` and `set`: the places are a type of the lane's own, of which only these two
// are known.
pub(crate) fn at_each<L: Lanes, M: Lanes, F: Fn(L) -> M>(v: V128, f: F) -> M::Places
    requires callable { F.IsAlwaysCallable f }
    requires alike { M.COUNT ≡ L.COUNT }
    ensures { (g : ℕ → ℕ) → Gives L.number M.number (F.post f) g → map M.number (M.listed result) ≡ map g (lanes L.width (number v) ++ replicate L.idle 0) }
{
    let a = L::places(v);
    let mut r = M::places(V128 { lo: 0, hi: 0 });
    for i in 0..L::COUNT {
        let x = f(L::get(&a, i));
        M::set(&mut r, i, x);
    }
    r
}

impl V128 {
    pub(crate) fn unary<L: Lanes, F: Fn(L) -> L>(self, f: F) -> V128
        requires { F.IsAlwaysCallable f }
        ensures { (g : ℕ → ℕ) → Gives L.number L.number (F.post f) g → number result ≡ unary L.width g (number self) }
    {
        L::of_places(at_each::<L, L, F>(self, f))
    }

    pub(crate) fn binary<L: Lanes, F: Fn(L, L) -> L>(self, other: V128, f: F) -> V128
        requires { F.IsAlwaysCallable f }
        ensures { (g : ℕ → ℕ → ℕ) → GivesOfTwo L.number (F.post f) g → number result ≡ binary L.width g (number self) (number other) }
    {
        self.binary_over(other, L::COUNT, f)
    }

    // The same over fewer places: where much is done at each, a real loop is left over all.
    pub(crate) fn binary_over<L: Lanes, F: Fn(L, L) -> L>(
        self,
        other: V128,
        end: usize,
        f: F,
    ) -> V128
        requires callable { F.IsAlwaysCallable f }
        requires enough { 128 / L.width ≤ end }
        requires within { end ≤ L.COUNT }
        ensures { (g : ℕ → ℕ → ℕ) → GivesOfTwo L.number (F.post f) g → number result ≡ binary L.width g (number self) (number other) }
    {
        let mut a = L::places(self);
        let b = L::places(other);
        for i in 0..end {
            let x = f(L::get(&a, i), L::get(&b, i));
            L::set(&mut a, i, x);
        }
        L::of_places(a)
    }
}

impl Lanes for u8 {
    ghost idle = { 48 };

    ghost COUNT = { 64 };

    const COUNT: usize = 64;

    type Places = [u8; 64];

    ghost listed = { λ p. p };

    fn places(v: V128) -> [u8; 64] {
        v.places8()
    }

    fn of_places(p: [u8; 64]) -> V128 {
        V128::from_places8(p)
    }

    fn get(p: &[u8; 64], i: usize) -> u8 {
        p[i]
    }

    fn set(p: &mut [u8; 64], i: usize, x: u8) {
        p[i] = x;
    }

    fn splat(x: u8) -> V128 {
        V128::join8([x; 16])
    }

    fn lane(v: V128, lane: u8) -> u8 {
        if lane < 16 {
            let a = v.lanes8();
            a[lane as usize]
        } else {
            0
        }
    }

    fn replace(v: V128, lane: u8, x: u8) -> Result<V128, Refusal> {
        lane_below(lane, 16)?;
        let mut a = v.lanes8();
        a[lane as usize] = x;
        Ok(V128::join8(a))
    }

    ghost counted = { refl };
}

impl Lanes for u16 {
    ghost idle = { 56 };

    ghost COUNT = { 64 };

    const COUNT: usize = 64;

    type Places = [u16; 64];

    ghost listed = { λ p. p };

    fn places(v: V128) -> [u16; 64] {
        v.places16()
    }

    fn of_places(p: [u16; 64]) -> V128 {
        V128::from_places16(p)
    }

    fn get(p: &[u16; 64], i: usize) -> u16 {
        p[i]
    }

    fn set(p: &mut [u16; 64], i: usize, x: u16) {
        p[i] = x;
    }

    fn splat(x: u16) -> V128 {
        V128::join16([x; 8])
    }

    fn lane(v: V128, lane: u8) -> u16 {
        if lane < 8 {
            let a = v.lanes16();
            a[lane as usize]
        } else {
            0
        }
    }

    fn replace(v: V128, lane: u8, x: u16) -> Result<V128, Refusal> {
        lane_below(lane, 8)?;
        let mut a = v.lanes16();
        a[lane as usize] = x;
        Ok(V128::join16(a))
    }

    ghost counted = { refl };
}

impl Lanes for u32 {
    ghost idle = { 60 };

    ghost COUNT = { 64 };

    const COUNT: usize = 64;

    type Places = [u32; 64];

    ghost listed = { λ p. p };

    fn places(v: V128) -> [u32; 64] {
        v.places32()
    }

    fn of_places(p: [u32; 64]) -> V128 {
        V128::from_places32(p)
    }

    fn get(p: &[u32; 64], i: usize) -> u32 {
        p[i]
    }

    fn set(p: &mut [u32; 64], i: usize, x: u32) {
        p[i] = x;
    }

    fn splat(x: u32) -> V128 {
        V128::join32([x; 4])
    }

    fn lane(v: V128, lane: u8) -> u32 {
        if lane < 4 {
            let a = v.lanes32();
            a[lane as usize]
        } else {
            0
        }
    }

    fn replace(v: V128, lane: u8, x: u32) -> Result<V128, Refusal> {
        lane_below(lane, 4)?;
        let mut a = v.lanes32();
        a[lane as usize] = x;
        Ok(V128::join32(a))
    }

    ghost counted = { refl };
}

// Lanes of 64 bits are the halves: no place is idle.
impl Lanes for u64 {
    ghost idle = { 0 };

    ghost COUNT = { 2 };

    const COUNT: usize = 2;

    type Places = [u64; 2];

    ghost listed = { λ p. p };

    fn places(v: V128) -> [u64; 2] {
        [v.lo, v.hi]
    }

    fn of_places(p: [u64; 2]) -> V128 {
        V128 { lo: p[0], hi: p[1] }
    }

    fn get(p: &[u64; 2], i: usize) -> u64 {
        p[i]
    }

    fn set(p: &mut [u64; 2], i: usize, x: u64) {
        p[i] = x;
    }

    fn splat(x: u64) -> V128 {
        V128 { lo: x, hi: x }
    }

    fn lane(v: V128, lane: u8) -> u64 {
        if lane == 0 {
            v.lo
        } else if lane == 1 {
            v.hi
        } else {
            0
        }
    }

    fn replace(v: V128, lane: u8, x: u64) -> Result<V128, Refusal> {
        match lane {
            0 => Ok(V128 { lo: x, hi: v.hi }),
            1 => Ok(V128 { lo: v.lo, hi: x }),
            _ => Err(Refusal::Lane),
        }
    }

    ghost counted = { refl };
}
