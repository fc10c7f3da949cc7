// The vector as 128 bits: functions 57 to 60, 85 and 215.
use crate::answer::Answer;
use simd::V128;

// Bitselect takes its mask from c.
pub fn bitwise(f: u16, a: V128, b: V128, c: V128) -> Answer {
    let v = match f {
        57 => a.v128_and(b),
        58 => a.v128_or(b),
        59 => a.v128_xor(b),
        60 => a.v128_andnot(b),
        85 => a.v128_not(),
        215 => a.v128_bitselect(b, c),
        _ => return Answer::none(),
    };
    Answer::vector(v)
}
