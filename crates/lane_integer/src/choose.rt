// One of two lanes, by a test. As a call it leaves no jump where a loop over lanes is compiled.
ghost use Rattle.std.specs.Prelude.{◌≡◌, if◌then◌else◌};
ghost use Rattle.standard.specs.Integer.{truth, imin_s, imin_u, imax_s, imax_u};

use crate::Lane;

pub fn pick<T: Copy>(t: bool, a: T, b: T) -> T
    ensures { result ≡ (if t then a else b) }
{
    if t { a } else { b }
}

/// The lane of a comparison: all ones or all zeros.
pub fn truth<L: Lane>(t: bool) -> L
    ensures { L.number result ≡ truth L.width t }
{
    pick(t, L::ones(), L::zero())
}

pub fn min_s<L: Lane>(a: L, b: L) -> L
    ensures { L.number result ≡ imin_s L.width (L.number a) (L.number b) }
{
    pick(a.lt_s(b), a, b)
}

pub fn min_u<L: Lane>(a: L, b: L) -> L
    ensures { L.number result ≡ imin_u L.width (L.number a) (L.number b) }
{
    pick(a.lt_u(b), a, b)
}

pub fn max_s<L: Lane>(a: L, b: L) -> L
    ensures { L.number result ≡ imax_s L.width (L.number a) (L.number b) }
{
    pick(b.lt_s(a), a, b)
}

pub fn max_u<L: Lane>(a: L, b: L) -> L
    ensures { L.number result ≡ imax_u L.width (L.number a) (L.number b) }
{
    pick(b.lt_u(a), a, b)
}
