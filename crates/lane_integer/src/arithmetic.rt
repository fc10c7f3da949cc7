// Negation, absolute value and the count of ones.
ghost use Rattle.std.specs.Prelude.{◌≡◌};
ghost use Rattle.standard.specs.Integer.{ineg, iabs, ipopcnt};

use crate::Lane;

pub fn neg<L: Lane>(x: L) -> L
    ensures { L.number result ≡ ineg L.width (L.number x) }
{
    L::zero().sub(x)
}

// The lowest number is its own absolute value: it has no negation of its own width.
pub fn abs<L: Lane>(x: L) -> L
    ensures { L.number result ≡ iabs L.width (L.number x) }
{
    if x.lt_s(L::zero()) { neg(x) } else { x }
}

pub fn popcnt(x: u8) -> u8
    ensures { result ≡ ipopcnt 8 x }
{
    x.count_ones() as u8
}
