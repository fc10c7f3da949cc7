// Comparisons of float lanes, all ones or all zeros, and the lane that a comparison picks, on patterns.
#![tactic(auto)]

ghost use Rattle.std.specs.Prelude.{◌≡◌};
ghost use Rattle.standard.specs.Float.{feq, fne, flt, fgt, fle, fge, fpmin, fpmax};

use lane_float::{feq, fle, flt};
use lane_float_value::{Pattern, pick};

pub fn eq<P: Pattern>(a: P, b: P) -> P
    ensures { P.bits result ≡ feq P.format (P.bits a) (P.bits b) }
{
    P::truth(feq(a, b))
}

pub fn ne<P: Pattern>(a: P, b: P) -> P
    ensures { P.bits result ≡ fne P.format (P.bits a) (P.bits b) }
{
    P::truth(!feq(a, b))
}

pub fn lt<P: Pattern>(a: P, b: P) -> P
    ensures { P.bits result ≡ flt P.format (P.bits a) (P.bits b) }
{
    P::truth(flt(a, b))
}

pub fn gt<P: Pattern>(a: P, b: P) -> P
    ensures { P.bits result ≡ fgt P.format (P.bits a) (P.bits b) }
{
    P::truth(flt(b, a))
}

pub fn le<P: Pattern>(a: P, b: P) -> P
    ensures { P.bits result ≡ fle P.format (P.bits a) (P.bits b) }
{
    P::truth(fle(a, b))
}

pub fn ge<P: Pattern>(a: P, b: P) -> P
    ensures { P.bits result ≡ fge P.format (P.bits a) (P.bits b) }
{
    P::truth(fle(b, a))
}

// "pmin is b where b < a, else a. pmax is b where a < b, else a. Result bits are those of the chosen lane" (document 01, "Lane rules").
pub fn pmin<P: Pattern>(a: P, b: P) -> P
    ensures { P.bits result ≡ fpmin P.format (P.bits a) (P.bits b) }
{
    pick(flt(b, a), b, a)
}

pub fn pmax<P: Pattern>(a: P, b: P) -> P
    ensures { P.bits result ≡ fpmax P.format (P.bits a) (P.bits b) }
{
    pick(flt(a, b), b, a)
}
