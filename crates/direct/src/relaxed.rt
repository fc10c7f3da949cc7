// The relaxed instructions: functions 213, 214 and 272 to 281. Those of three vectors take the third from c.
use crate::answer::Answer;
use simd::V128;

pub fn relaxed(f: u16, a: V128, b: V128, c: V128) -> Answer {
    let v = match f {
        213 => a.i16x8_relaxed_dot_i8x16_i7x16_s(b),
        214 => a.i32x4_relaxed_dot_i8x16_i7x16_add_s(b, c),
        272 => a.i8x16_relaxed_swizzle(b),
        273 => a.i8x16_relaxed_laneselect(b, c),
        274 => a.i16x8_relaxed_laneselect(b, c),
        275 => a.i32x4_relaxed_laneselect(b, c),
        276 => a.i64x2_relaxed_laneselect(b, c),
        277 => a.f32x4_relaxed_min(b),
        278 => a.f32x4_relaxed_max(b),
        279 => a.f64x2_relaxed_min(b),
        280 => a.f64x2_relaxed_max(b),
        281 => a.i16x8_relaxed_q15mulr_s(b),
        _ => return Answer::none(),
    };
    Answer::vector(v)
}
