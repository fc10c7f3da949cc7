// Lanes in another format: functions 93 to 104, 159 to 161 and 200 to 202.
use crate::answer::Answer;
use simd::V128;

// Float lanes rounded to whole numbers.
pub fn rounded(f: u16, a: V128) -> Answer {
    let v = match f {
        93 => a.f32x4_ceil(),
        94 => a.f64x2_ceil(),
        95 => a.f32x4_floor(),
        96 => a.f64x2_floor(),
        97 => a.f32x4_trunc(),
        98 => a.f64x2_trunc(),
        99 => a.f32x4_nearest(),
        100 => a.f64x2_nearest(),
        _ => return Answer::none(),
    };
    Answer::vector(v)
}

// Whole numbers to floats, floats to whole numbers and to the other float format.
pub fn convert(f: u16, a: V128) -> Answer {
    let v = match f {
        101 => a.f32x4_convert_i32x4_s(),
        102 => a.f32x4_convert_i32x4_u(),
        103 => a.i32x4_trunc_sat_f32x4_s(),
        104 => a.i32x4_trunc_sat_f32x4_u(),
        159 => a.f64x2_convert_low_i32x4_s(),
        160 => a.f64x2_convert_low_i32x4_u(),
        161 => a.f64x2_promote_low_f32x4(),
        200 => a.i32x4_trunc_sat_f64x2_s_zero(),
        201 => a.i32x4_trunc_sat_f64x2_u_zero(),
        202 => a.f32x4_demote_f64x2_zero(),
        _ => return Answer::none(),
    };
    Answer::vector(v)
}
