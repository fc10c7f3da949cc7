// Lanes of 32 bits and f64 to f32, rounded: convert, of four lanes side by side, and demote. Of a whole number the leading digit is moved to the top of its
// place, where it adds one to the exponent's field.
#![tactic(auto)]

ghost use Rattle.std.specs.Prelude.{◌≡◌, map, ◌^◌, ◌<◌, nat_abs};
ghost use Rattle.std.specs.Float.{binary32};
ghost use Rattle.std.specs.Float.Ieee.Nearest.{closest};
ghost use Rattle.standard.specs.Integer.{signed};
ghost use Rattle.standard.specs.Convert.{demote, convert_u, convert_s};
ghost use Rattle.lane_float_narrow.specs.Top.{top_digit};

use lane_float_parts::*;
use lane_float_value::*;

// n / 2^k to the nearest whole number, a tie to the even one.
fn nearest_shift(n: u64, k: u64) -> u64
    requires k_nonzero { 0 < k }
    requires k_bound { k < 64 }
    requires n_bound { n < 0x8000_0000_0000_0000 }
    ensures { result ≡ closest n (2 ^ k) }
{
    (n + lift(true, false, n, k)) >> k
}

// A field below 863 is less than half of the smallest f32, one below 897 gives a subnormal, and one above 1150 reaches 2^128. By the upper half, which has the
// sign, the field and the first digits: it is compared with numbers of 32 bits.
pub fn demote(bits: u64) -> u32
    ensures { result ≡ demote bits }
{
    let high = (bits / 0x1_0000_0000) as u32;
    let size = high % 0x8000_0000;
    let sign = high - size;
    if size < 0x35F0_0000 {
        return sign;
    }
    if 0x7FF0_0000 <= size {
        return pick(
            0x7FF0_0000_0000_0000 < bits % 0x8000_0000_0000_0000,
            u32::nan(),
            sign + 0x7F80_0000,
        );
    }
    if 0x47F0_0000 <= size {
        return sign + 0x7F80_0000;
    }
    let field = (size / 0x10_0000) as u64;
    let digits = bits % 0x10_0000_0000_0000 + 0x10_0000_0000_0000;
    if field < 897 {
        return sign + (nearest_shift(digits, 926 - field) as u32);
    }
    sign + (((field - 897) * 0x80_0000 + nearest_shift(digits, 29)) as u32)
}

// The place of the leading digit, and of 0 the place that 1 has.
fn top(n: u32) -> u32
    ensures { result ≡ top_digit n }
{
    31 - u32::leading_zeros(n | 1)
}

// This much is done lane by lane: a vector has no instruction for it.
fn tops(a: [u32; 4]) -> [u32; 4]
    ensures { result ≡ map top_digit a }
{
    [top(a[0]), top(a[1]), top(a[2]), top(a[3])]
}

// A whole number to a float, told the place of its leading digit: with no branch, and no shift by another count but to the left, so that lanes go side by side.
fn by_top(n: u32, k: u32) -> u32
    requires { k ≡ top_digit n }
    ensures { result ≡ convert_u binary32 n }
{
    let v = n << (31 - k);
    let q = v / 256;
    let up = pick(128 < v % 256 + q % 2, 1, 0);
    pick(n == 0, 0, ((126 + k) << 23) + q + up)
}

pub fn convert_u32x4(a: [u32; 4]) -> [u32; 4]
    ensures { result ≡ map (convert_u binary32) a }
{
    let n = places(a);
    let k = places(tops(a));
    let mut r = [0; 24];
    for i in 0..24 {
        r[i] = by_top(n[i], k[i]);
    }
    lanes(r)
}

// The same of a signed number, told its magnitude, too.
fn by_top_s(x: u32, n: u32, k: u32) -> u32
    requires n_value { n ≡ nat_abs (signed 32 x) }
    requires k_value { k ≡ top_digit n }
    ensures { result ≡ convert_s binary32 x }
{
    pick(0x8000_0000 <= x, 0x8000_0000, 0) + by_top(n, k)
}

// The magnitudes. At a place there is little to do, so the loop is over 64 of them.
fn sizes(a: [u32; 4]) -> [u32; 4]
    ensures { result ≡ map (λ x. nat_abs (signed 32 x)) a }
{
    let mut x = [0; 64];
    x[0] = a[0];
    x[1] = a[1];
    x[2] = a[2];
    x[3] = a[3];
    let mut r = [0; 64];
    for i in 0..64 {
        r[i] = magnitude(x[i]);
    }
    [r[0], r[1], r[2], r[3]]
}

pub fn convert_s32x4(a: [u32; 4]) -> [u32; 4]
    ensures { result ≡ map (convert_s binary32) a }
{
    let s = sizes(a);
    let x = places(a);
    let n = places(s);
    let k = places(tops(s));
    let mut r = [0; 24];
    for i in 0..24 {
        r[i] = by_top_s(x[i], n[i], k[i]);
    }
    lanes(r)
}
