// Shifts: functions 184 to 195. The count is taken modulo the lane width.
use crate::answer::Answer;
use simd::V128;

pub fn shift(f: u16, a: V128, count: u32) -> Answer {
    let v = match f {
        184 => a.i8x16_shl(count),
        185 => a.i16x8_shl(count),
        186 => a.i32x4_shl(count),
        187 => a.i64x2_shl(count),
        188 => a.i8x16_shr_s(count),
        189 => a.i8x16_shr_u(count),
        190 => a.i16x8_shr_s(count),
        191 => a.i16x8_shr_u(count),
        192 => a.i32x4_shr_s(count),
        193 => a.i32x4_shr_u(count),
        194 => a.i64x2_shr_s(count),
        195 => a.i64x2_shr_u(count),
        _ => return Answer::none(),
    };
    Answer::vector(v)
}
