// Splats: functions 0 to 5. The scalar operand counts with its low bits, as many as a lane has; a float is taken by its bits.
use crate::answer::Answer;
use crate::layout::{low8, low16, low32};
use lane_float::{F32, F64};
use lane_integer::Lane;
use simd::V128;

pub fn splat(f: u16, scalar: u64) -> Answer {
    let v = match f {
        0 => V128::i64x2_splat(scalar.signed()),
        1 => V128::i32x4_splat(low32(scalar).signed()),
        2 => V128::i16x8_splat(low16(scalar).signed()),
        3 => V128::i8x16_splat(low8(scalar).signed()),
        4 => V128::f32x4_splat(F32::from_bits(low32(scalar))),
        5 => V128::f64x2_splat(F64::from_bits(scalar)),
        _ => return Answer::none(),
    };
    Answer::vector(v)
}
