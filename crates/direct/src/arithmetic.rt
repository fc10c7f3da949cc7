// Whole-number arithmetic lane by lane: functions 22 to 56, 77 to 84 and 86.
use crate::answer::Answer;
use simd::V128;

// Add, subtract and multiply, modulo the lane width.
pub fn sum_or_product(f: u16, a: V128, b: V128) -> Answer {
    let v = match f {
        22 => a.i64x2_add(b),
        23 => a.i32x4_add(b),
        24 => a.i16x8_add(b),
        25 => a.i8x16_add(b),
        26 => a.i64x2_sub(b),
        27 => a.i32x4_sub(b),
        28 => a.i16x8_sub(b),
        29 => a.i8x16_sub(b),
        30 => a.i64x2_mul(b),
        31 => a.i32x4_mul(b),
        32 => a.i16x8_mul(b),
        33 => a.i8x16_mul(b),
        _ => return Answer::none(),
    };
    Answer::vector(v)
}

// Saturating sums and differences, and the rounded product of 15 bits.
pub fn saturating(f: u16, a: V128, b: V128) -> Answer {
    let v = match f {
        34 => a.i8x16_add_sat_s(b),
        35 => a.i8x16_add_sat_u(b),
        36 => a.i16x8_add_sat_s(b),
        37 => a.i16x8_add_sat_u(b),
        38 => a.i8x16_sub_sat_s(b),
        39 => a.i8x16_sub_sat_u(b),
        40 => a.i16x8_sub_sat_s(b),
        41 => a.i16x8_sub_sat_u(b),
        42 => a.i16x8_q15mulr_sat_s(b),
        _ => return Answer::none(),
    };
    Answer::vector(v)
}

// Minimum, maximum and rounding average.
pub fn least_or_greatest(f: u16, a: V128, b: V128) -> Answer {
    let v = match f {
        43 => a.i8x16_min_s(b),
        44 => a.i8x16_min_u(b),
        45 => a.i16x8_min_s(b),
        46 => a.i16x8_min_u(b),
        47 => a.i32x4_min_s(b),
        48 => a.i32x4_min_u(b),
        49 => a.i8x16_max_s(b),
        50 => a.i8x16_max_u(b),
        51 => a.i16x8_max_s(b),
        52 => a.i16x8_max_u(b),
        53 => a.i32x4_max_s(b),
        54 => a.i32x4_max_u(b),
        55 => a.i8x16_avgr_u(b),
        56 => a.i16x8_avgr_u(b),
        _ => return Answer::none(),
    };
    Answer::vector(v)
}

// Negate, absolute value and the count of one bits.
pub fn unary(f: u16, a: V128) -> Answer {
    let v = match f {
        77 => a.i64x2_neg(),
        78 => a.i32x4_neg(),
        79 => a.i16x8_neg(),
        80 => a.i8x16_neg(),
        81 => a.i8x16_abs(),
        82 => a.i16x8_abs(),
        83 => a.i32x4_abs(),
        84 => a.i64x2_abs(),
        86 => a.i8x16_popcnt(),
        _ => return Answer::none(),
    };
    Answer::vector(v)
}
