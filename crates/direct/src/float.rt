// Float lanes: functions 61 to 76 and 87 to 90. Float comparisons are in compare.rt.
use crate::answer::Answer;
use simd::V128;

// Arithmetic, minimum and maximum.
pub fn arithmetic(f: u16, a: V128, b: V128) -> Answer {
    let v = match f {
        61 => a.f32x4_min(b),
        62 => a.f64x2_min(b),
        63 => a.f32x4_max(b),
        64 => a.f64x2_max(b),
        69 => a.f32x4_add(b),
        70 => a.f64x2_add(b),
        71 => a.f32x4_sub(b),
        72 => a.f64x2_sub(b),
        73 => a.f32x4_div(b),
        74 => a.f64x2_div(b),
        75 => a.f32x4_mul(b),
        76 => a.f64x2_mul(b),
        _ => return Answer::none(),
    };
    Answer::vector(v)
}

// Pseudo-minimum and pseudo-maximum.
pub fn chosen(f: u16, a: V128, b: V128) -> Answer {
    let v = match f {
        65 => a.f32x4_pmin(b),
        66 => a.f64x2_pmin(b),
        67 => a.f32x4_pmax(b),
        68 => a.f64x2_pmax(b),
        _ => return Answer::none(),
    };
    Answer::vector(v)
}

// Negate and absolute value, on the sign bit.
pub fn sign(f: u16, a: V128) -> Answer {
    let v = match f {
        87 => a.f32x4_neg(),
        88 => a.f64x2_neg(),
        89 => a.f32x4_abs(),
        90 => a.f64x2_abs(),
        _ => return Answer::none(),
    };
    Answer::vector(v)
}
