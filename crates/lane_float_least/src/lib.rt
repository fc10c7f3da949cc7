// The least and the greatest of two float lanes by their patterns (the standard, 4.3.3 "Floating-Point Operations"; document 02, order 4). One comparison of
// numbers decides. Where neither is below the other they are equal, and differ in their signs at most: then the signs decide, −0 below +0.
#![tactic(auto)]

ghost use Rattle.std.specs.Prelude.{◌≡◌, ◌*◌, ◌<◌, cond, leb};
ghost use Rattle.std.specs.Float.Ieee.{top};
ghost use Rattle.standard.specs.Float.{fmin, fmax};

use lane_float_value::{Pattern, pick};

// The sign alone.
fn sign<P: Pattern>(b: P) -> u64
    ensures sign { result ≡ cond (leb (top P.format) (P.bits b)) (top P.format) 0 }
    ensures fits { P.bits b < 2 * top P.format }
{
    if P::SIGN <= b.to_u64() { P::SIGN } else { 0 }
}

pub fn fmin<P: Pattern>(a: P, b: P) -> P
    ensures { P.bits result ≡ fmin P.format (P.bits a) (P.bits b) }
{
    if a.ordered(b) {
        let first = P::from_u64(a.to_u64() | sign(b));
        pick(P::less(b.number(), a.number()), b, first)
    } else {
        P::nan()
    }
}

pub fn fmax<P: Pattern>(a: P, b: P) -> P
    ensures { P.bits result ≡ fmax P.format (P.bits a) (P.bits b) }
{
    if a.ordered(b) {
        let first = P::from_u64(a.to_u64() & (b.to_u64() | (P::SIGN - 1)));
        pick(P::less(a.number(), b.number()), b, first)
    } else {
        P::nan()
    }
}
