// Two lanes compared: all ones where the comparison holds, else all zeros; and a lane's sign.
ghost use Rattle.std.specs.Prelude.{◌≡◌, if◌then◌else◌};
ghost use Rattle.std.specs.Int.Signed.{non_neg};
ghost use Rattle.standard.specs.Integer.{signed, ieq, ine, ilt_u, igt_u, ile_u, ige_u, ilt_s, igt_s, ile_s, ige_s};

use crate::Lane;
use crate::choose::truth;

pub fn eq<L: Lane>(a: L, b: L) -> L
    ensures { L.number result ≡ ieq L.width (L.number a) (L.number b) }
{
    truth(a.eq(b))
}

pub fn ne<L: Lane>(a: L, b: L) -> L
    ensures { L.number result ≡ ine L.width (L.number a) (L.number b) }
{
    truth(!a.eq(b))
}

pub fn lt_u<L: Lane>(a: L, b: L) -> L
    ensures { L.number result ≡ ilt_u L.width (L.number a) (L.number b) }
{
    truth(a.lt_u(b))
}

pub fn gt_u<L: Lane>(a: L, b: L) -> L
    ensures { L.number result ≡ igt_u L.width (L.number a) (L.number b) }
{
    truth(b.lt_u(a))
}

pub fn le_u<L: Lane>(a: L, b: L) -> L
    ensures { L.number result ≡ ile_u L.width (L.number a) (L.number b) }
{
    truth(!b.lt_u(a))
}

pub fn ge_u<L: Lane>(a: L, b: L) -> L
    ensures { L.number result ≡ ige_u L.width (L.number a) (L.number b) }
{
    truth(!a.lt_u(b))
}

pub fn lt_s<L: Lane>(a: L, b: L) -> L
    ensures { L.number result ≡ ilt_s L.width (L.number a) (L.number b) }
{
    truth(a.lt_s(b))
}

pub fn gt_s<L: Lane>(a: L, b: L) -> L
    ensures { L.number result ≡ igt_s L.width (L.number a) (L.number b) }
{
    truth(b.lt_s(a))
}

pub fn le_s<L: Lane>(a: L, b: L) -> L
    ensures { L.number result ≡ ile_s L.width (L.number a) (L.number b) }
{
    truth(!b.lt_s(a))
}

pub fn ge_s<L: Lane>(a: L, b: L) -> L
    ensures { L.number result ≡ ige_s L.width (L.number a) (L.number b) }
{
    truth(!a.lt_s(b))
}

/// The sign bit.
pub fn sign<L: Lane>(x: L) -> u8
    ensures { result ≡ (if non_neg (signed L.width (L.number x)) then 0 else 1) }
{
    if x.lt_s(L::zero()) { 1 } else { 0 }
}
