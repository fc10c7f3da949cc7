// Comparisons of whole-number and float lanes: functions 105 to 152.
use crate::answer::Answer;
use simd::V128;

// Equal and not equal.
pub fn equality(f: u16, a: V128, b: V128) -> Answer {
    let v = match f {
        105 => a.i8x16_eq(b),
        106 => a.i16x8_eq(b),
        107 => a.i32x4_eq(b),
        108 => a.i64x2_eq(b),
        109 => a.f32x4_eq(b),
        110 => a.f64x2_eq(b),
        111 => a.i8x16_ne(b),
        112 => a.i16x8_ne(b),
        113 => a.i32x4_ne(b),
        114 => a.i64x2_ne(b),
        115 => a.f32x4_ne(b),
        116 => a.f64x2_ne(b),
        _ => return Answer::none(),
    };
    Answer::vector(v)
}

// Less, and less or equal.
pub fn less(f: u16, a: V128, b: V128) -> Answer {
    let v = match f {
        117 => a.i8x16_lt_s(b),
        118 => a.i8x16_lt_u(b),
        119 => a.i16x8_lt_s(b),
        120 => a.i16x8_lt_u(b),
        121 => a.i32x4_lt_s(b),
        122 => a.i32x4_lt_u(b),
        123 => a.i64x2_lt_s(b),
        124 => a.f32x4_lt(b),
        125 => a.f64x2_lt(b),
        126 => a.i8x16_le_s(b),
        127 => a.i8x16_le_u(b),
        128 => a.i16x8_le_s(b),
        129 => a.i16x8_le_u(b),
        130 => a.i32x4_le_s(b),
        131 => a.i32x4_le_u(b),
        132 => a.i64x2_le_s(b),
        133 => a.f32x4_le(b),
        134 => a.f64x2_le(b),
        _ => return Answer::none(),
    };
    Answer::vector(v)
}

// Greater, and greater or equal.
pub fn greater(f: u16, a: V128, b: V128) -> Answer {
    let v = match f {
        135 => a.i8x16_gt_s(b),
        136 => a.i8x16_gt_u(b),
        137 => a.i16x8_gt_s(b),
        138 => a.i16x8_gt_u(b),
        139 => a.i32x4_gt_s(b),
        140 => a.i32x4_gt_u(b),
        141 => a.i64x2_gt_s(b),
        142 => a.f32x4_gt(b),
        143 => a.f64x2_gt(b),
        144 => a.i8x16_ge_s(b),
        145 => a.i8x16_ge_u(b),
        146 => a.i16x8_ge_s(b),
        147 => a.i16x8_ge_u(b),
        148 => a.i32x4_ge_s(b),
        149 => a.i32x4_ge_u(b),
        150 => a.i64x2_ge_s(b),
        151 => a.f32x4_ge(b),
        152 => a.f64x2_ge(b),
        _ => return Answer::none(),
    };
    Answer::vector(v)
}
