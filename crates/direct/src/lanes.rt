// Lanes read and replaced: functions 6 to 19. A lane number that is not below the lane count is refused, with 4.
use crate::answer::Answer;
use crate::layout::{low8, low16, low32};
use lane_float::{F32, F64};
use lane_integer::Lane;
use simd::V128;

pub fn extract(f: u16, a: V128, lane: u8) -> Answer {
    match f {
        6 => Answer::of_i64(a.i64x2_extract_lane(lane)),
        7 => Answer::of_i32(a.i32x4_extract_lane(lane)),
        8 => Answer::of_f64(a.f64x2_extract_lane(lane)),
        9 => Answer::of_f32(a.f32x4_extract_lane(lane)),
        10 => Answer::of_i32(a.i8x16_extract_lane_s(lane)),
        11 => Answer::of_u32(a.i8x16_extract_lane_u(lane)),
        12 => Answer::of_i32(a.i16x8_extract_lane_s(lane)),
        13 => Answer::of_u32(a.i16x8_extract_lane_u(lane)),
        _ => Answer::none(),
    }
}

// The scalar operand as in `splat`.
pub fn replace(f: u16, a: V128, lane: u8, scalar: u64) -> Answer {
    match f {
        14 => Answer::of_vector(a.i64x2_replace_lane(lane, scalar.signed())),
        15 => Answer::of_vector(a.i32x4_replace_lane(lane, low32(scalar).signed())),
        16 => Answer::of_vector(a.i16x8_replace_lane(lane, low16(scalar).signed())),
        17 => Answer::of_vector(a.i8x16_replace_lane(lane, low8(scalar).signed())),
        18 => Answer::of_vector(a.f64x2_replace_lane(lane, F64::from_bits(scalar))),
        19 => Answer::of_vector(a.f32x4_replace_lane(lane, F32::from_bits(low32(scalar)))),
        _ => Answer::none(),
    }
}
