// Floats rounded to whole numbers, by their patterns: trunc, floor, ceil and nearest. The direction and the sign say which of three ways to take, to even, away
// from zero or toward it, and one function takes it. The fraction's digits are cut off after an addend, whose carry runs on into the field of the exponent.
#![tactic(auto)]

ghost use Rattle.std.specs.Prelude.{◌≡◌};
ghost use Rattle.std.specs.Float.Ieee.{of_bits, to_bits};
ghost use Rattle.standard.specs.Convert.{ftrunc, ffloor, fceil, fnearest};
ghost use Rattle.lane_float_pattern.specs.Integral.{rounded, rises};

use lane_float_parts::lift;
use lane_float_value::{Pattern, pick};

// A half has the field before that of 1.
fn rises<P: Pattern>(even: bool, away: bool, bits: P) -> bool
    ensures { result ≡ rises P.format even away (P.bits bits) }
{
    let size = bits.to_u64() % P::SIGN;
    if even {
        (P::BIAS - 1) * P::FIELD < size
    } else {
        away & (0 < size)
    }
}

fn integral<P: Pattern>(bits: P, even: bool, away: bool) -> P
    ensures { P.bits result ≡ to_bits P.format (rounded even away P.format (of_bits P.format (P.bits bits))) }
{
    let n = bits.to_u64();
    let size = n % P::SIGN;
    if P::INFINITY < size {
        return P::nan();
    }
    let field = size / P::FIELD;
    if P::LOWEST < field {
        return bits;
    }
    if field < P::BIAS {
        return P::from_u64(
            pick(P::SIGN <= n, P::SIGN, 0) + pick(rises(even, away, bits), P::BIAS * P::FIELD, 0),
        );
    }
    let j = P::LOWEST + 1 - field;
    P::from_u64(((n + lift(even, away, n, j)) >> j) << j)
}

pub fn ftrunc<P: Pattern>(bits: P) -> P
    ensures { P.bits result ≡ ftrunc P.format (P.bits bits) }
{
    integral(bits, false, false)
}

pub fn ffloor<P: Pattern>(bits: P) -> P
    ensures { P.bits result ≡ ffloor P.format (P.bits bits) }
{
    integral(bits, false, P::SIGN <= bits.to_u64())
}

pub fn fceil<P: Pattern>(bits: P) -> P
    ensures { P.bits result ≡ fceil P.format (P.bits bits) }
{
    integral(bits, false, bits.to_u64() < P::SIGN)
}

pub fn fnearest<P: Pattern>(bits: P) -> P
    ensures { P.bits result ≡ fnearest P.format (P.bits bits) }
{
    integral(bits, true, false)
}
