// The packed forms, each under its function's number (a request has 512 more).
use crate::answer::Answer;
use simd::V128;

pub fn binary(f: u16, a: V128, b: V128) -> Answer {
    let v = match f {
        22 => packed_vector::i64x2_add(a, b),
        23 => packed_vector::i32x4_add(a, b),
        24 => packed_vector::i16x8_add(a, b),
        25 => packed_vector::i8x16_add(a, b),
        26 => packed_vector::i64x2_sub(a, b),
        27 => packed_vector::i32x4_sub(a, b),
        28 => packed_vector::i16x8_sub(a, b),
        29 => packed_vector::i8x16_sub(a, b),
        55 => packed_vector::i8x16_avgr_u(a, b),
        56 => packed_vector::i16x8_avgr_u(a, b),
        105 => packed_vector::i8x16_eq(a, b),
        106 => packed_vector::i16x8_eq(a, b),
        107 => packed_vector::i32x4_eq(a, b),
        108 => packed_vector::i64x2_eq(a, b),
        _ => return Answer::none(),
    };
    Answer::vector(v)
}

pub fn unary(f: u16, a: V128) -> Answer {
    let v = match f {
        77 => packed_vector::i64x2_neg(a),
        78 => packed_vector::i32x4_neg(a),
        79 => packed_vector::i16x8_neg(a),
        80 => packed_vector::i8x16_neg(a),
        86 => packed_vector::i8x16_popcnt(a),
        _ => return Answer::none(),
    };
    Answer::vector(v)
}

pub fn shift(f: u16, a: V128, count: u32) -> Answer {
    let v = match f {
        184 => packed_vector::i8x16_shl(a, count),
        185 => packed_vector::i16x8_shl(a, count),
        186 => packed_vector::i32x4_shl(a, count),
        187 => packed_vector::i64x2_shl(a, count),
        189 => packed_vector::i8x16_shr_u(a, count),
        191 => packed_vector::i16x8_shr_u(a, count),
        193 => packed_vector::i32x4_shr_u(a, count),
        195 => packed_vector::i64x2_shr_u(a, count),
        _ => return Answer::none(),
    };
    Answer::vector(v)
}

pub fn reduce(f: u16, a: V128) -> Answer {
    match f {
        203 => Answer::boolean(packed_vector::i8x16_all_true(a)),
        204 => Answer::boolean(packed_vector::i16x8_all_true(a)),
        205 => Answer::boolean(packed_vector::i32x4_all_true(a)),
        206 => Answer::boolean(packed_vector::i64x2_all_true(a)),
        207 => Answer::u32(packed_vector::i8x16_bitmask(a)),
        208 => Answer::u32(packed_vector::i16x8_bitmask(a)),
        209 => Answer::u32(packed_vector::i32x4_bitmask(a)),
        210 => Answer::u32(packed_vector::i64x2_bitmask(a)),
        211 => Answer::boolean(packed_vector::v128_any_true(a)),
        _ => Answer::none(),
    }
}
