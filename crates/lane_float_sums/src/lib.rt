// Sum, difference, product and quotient of float lanes by their patterns (the standard, 4.3.3 "Floating-Point Operations"; document 02, order 4): each result
// is the language's own, rounded once, and a NaN goes through.
#![tactic(auto)]

ghost use Rattle.std.specs.Prelude.{◌≡◌};
ghost use Rattle.standard.specs.Float.{fadd, fsub, fmul, fdiv};

use lane_float_value::{Pattern, pick};

pub fn fadd<P: Pattern>(a: P, b: P) -> P
    ensures { P.bits result ≡ fadd P.format (P.bits a) (P.bits b) }
{
    if a.ordered(b) {
        P::of(a.number() + b.number())
    } else {
        P::nan()
    }
}

pub fn fsub<P: Pattern>(a: P, b: P) -> P
    ensures { P.bits result ≡ fsub P.format (P.bits a) (P.bits b) }
{
    if a.ordered(b) {
        P::of(a.number() - b.number())
    } else {
        P::nan()
    }
}

pub fn fmul<P: Pattern>(a: P, b: P) -> P
    ensures { P.bits result ≡ fmul P.format (P.bits a) (P.bits b) }
{
    if a.ordered(b) {
        P::of(a.number() * b.number())
    } else {
        P::nan()
    }
}

// The step of `fdiv` that differs with the width.
pub trait Divide: Pattern {
    fn divide(self, other: Self) -> Self
        ensures { Self.bits result ≡ fdiv Self.format (Self.bits self) (Self.bits other) };
}

impl Divide for u32 {
    fn divide(self, other: u32) -> u32 {
        if self.ordered(other) {
            u32::of(self.number() / other.number())
        } else {
            u32::nan()
        }
    }
}

// Of a NaN and any number zeros are taken, whose quotient is the NaN: a division that stands under an `if` is not made lane beside lane. At 32 bits, where it
// is, the zeros would take two instructions more a lane.
impl Divide for u64 {
    fn divide(self, other: u64) -> u64 {
        let numbers = self.ordered(other);
        let (x, y) = (pick(numbers, self, 0), pick(numbers, other, 0));
        u64::of(x.number() / y.number())
    }
}

pub fn fdiv<P: Divide>(a: P, b: P) -> P
    ensures { P.bits result ≡ fdiv P.format (P.bits a) (P.bits b) }
{
    a.divide(b)
}
