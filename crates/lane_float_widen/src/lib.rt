// Lanes of 32 bits and f32 to f64, which loses nothing: convert and promote. Of a whole number the leading digit is moved to the top of its place, where it
// adds one to the exponent's field.
#![tactic(auto)]

ghost use Rattle.std.specs.Prelude.{◌≡◌, false, ◌^◌, ◌<◌};
ghost use Rattle.std.specs.Float.{binary64};
ghost use Rattle.std.specs.Float.Ieee.{round, to_bits};
ghost use Rattle.standard.specs.Convert.{promote, convert_u, convert_s};

use lane_float_parts::*;
use lane_float_value::*;

// n / 2^l, which an f64 holds exactly. The number is turned right until its leading digit stands at the end and the digits after it at the top; the exponent's
// field is added, to which the leading digit adds one; and all is turned left by 52 places.
fn quotient(n: u32, l: u64) -> u64
    requires { l < 150 }
    ensures { result ≡ to_bits binary64 (round binary64 false n (2 ^ l)) }
{
    if n == 0 {
        return 0;
    }
    let k = (31 - u32::leading_zeros(n)) as u64;
    let x = n as u64;
    let w = ((x >> k) | (x << ((64 - k) % 64))) + (1022 - l + k);
    (w >> 12) | (w << 52)
}

// A number whose field is neither 0 nor 255 first: one more than the field is then neither 1 nor 256.
pub fn promote(bits: u32) -> u64
    ensures { result ≡ promote bits }
{
    let size = bits % 0x8000_0000;
    let sign = ((bits - size) as u64) * 0x1_0000_0000;
    if 1 < (bits / 0x80_0000 + 1) % 256 {
        return sign + ((size as u64) * 0x2000_0000 + 0x3800_0000_0000_0000);
    }
    if 0x7F80_0000 < size {
        return u64::nan();
    }
    if size < 0x7F80_0000 {
        sign + quotient(size, 149)
    } else {
        sign + 0x7FF0_0000_0000_0000
    }
}

pub fn convert_u64(n: u32) -> u64
    ensures { result ≡ convert_u binary64 n }
{
    quotient(n, 0)
}

pub fn convert_s64(n: u32) -> u64
    ensures { result ≡ convert_s binary64 n }
{
    pick(0x8000_0000 <= n, 0x8000_0000_0000_0000, 0) + convert_u64(magnitude(n))
}
