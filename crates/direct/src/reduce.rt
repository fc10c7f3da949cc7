// A vector reduced to a number: functions 203 to 211.
use crate::answer::Answer;
use simd::V128;

pub fn reduce(f: u16, a: V128) -> Answer {
    match f {
        203 => Answer::boolean(a.i8x16_all_true()),
        204 => Answer::boolean(a.i16x8_all_true()),
        205 => Answer::boolean(a.i32x4_all_true()),
        206 => Answer::boolean(a.i64x2_all_true()),
        207 => Answer::u32(a.i8x16_bitmask()),
        208 => Answer::u32(a.i16x8_bitmask()),
        209 => Answer::u32(a.i32x4_bitmask()),
        210 => Answer::u32(a.i64x2_bitmask()),
        211 => Answer::boolean(a.v128_any_true()),
        _ => Answer::none(),
    }
}
