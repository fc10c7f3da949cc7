// Lanes made wider or narrower: functions 153 to 158, 162 to 183, 196 to 199, 212, 232, 233 and 254 to 259.
use crate::answer::Answer;
use crate::layout::low32;
use simd::V128;

// The low or the high half of the lanes, extended.
pub fn extend(f: u16, a: V128) -> Answer {
    let v = match f {
        153 => a.i16x8_extend_low_i8x16_s(),
        154 => a.i16x8_extend_low_i8x16_u(),
        155 => a.i32x4_extend_low_i16x8_s(),
        156 => a.i32x4_extend_low_i16x8_u(),
        157 => a.i64x2_extend_low_i32x4_s(),
        158 => a.i64x2_extend_low_i32x4_u(),
        162 => a.i16x8_extend_high_i8x16_s(),
        163 => a.i16x8_extend_high_i8x16_u(),
        164 => a.i32x4_extend_high_i16x8_s(),
        165 => a.i32x4_extend_high_i16x8_u(),
        166 => a.i64x2_extend_high_i32x4_s(),
        167 => a.i64x2_extend_high_i32x4_u(),
        _ => return Answer::none(),
    };
    Answer::vector(v)
}

// Exact products of the low or the high half of the lanes.
pub fn extended_product(f: u16, a: V128, b: V128) -> Answer {
    let v = match f {
        168 => a.i16x8_extmul_low_i8x16_s(b),
        169 => a.i16x8_extmul_low_i8x16_u(b),
        170 => a.i32x4_extmul_low_i16x8_s(b),
        171 => a.i32x4_extmul_low_i16x8_u(b),
        172 => a.i64x2_extmul_low_i32x4_s(b),
        173 => a.i64x2_extmul_low_i32x4_u(b),
        174 => a.i16x8_extmul_high_i8x16_s(b),
        175 => a.i16x8_extmul_high_i8x16_u(b),
        176 => a.i32x4_extmul_high_i16x8_s(b),
        177 => a.i32x4_extmul_high_i16x8_u(b),
        178 => a.i64x2_extmul_high_i32x4_s(b),
        179 => a.i64x2_extmul_high_i32x4_u(b),
        _ => return Answer::none(),
    };
    Answer::vector(v)
}

// Exact sums of neighbouring lanes.
pub fn pairwise_sum(f: u16, a: V128) -> Answer {
    let v = match f {
        180 => a.i16x8_extadd_pairwise_i8x16_s(),
        181 => a.i16x8_extadd_pairwise_i8x16_u(),
        182 => a.i32x4_extadd_pairwise_i16x8_s(),
        183 => a.i32x4_extadd_pairwise_i16x8_u(),
        _ => return Answer::none(),
    };
    Answer::vector(v)
}

// Narrowing (a gives the low lanes), and the dot product.
pub fn narrow_or_dot(f: u16, a: V128, b: V128) -> Answer {
    let v = match f {
        196 => a.i8x16_narrow_i16x8_s(b),
        197 => a.i8x16_narrow_i16x8_u(b),
        198 => a.i16x8_narrow_i32x4_s(b),
        199 => a.i16x8_narrow_i32x4_u(b),
        212 => a.i32x4_dot_i16x8_s(b),
        _ => return Answer::none(),
    };
    Answer::vector(v)
}

// A vector of the scalar operand's bits, as the load of the same name gives for those bytes.
pub fn widen_bits(f: u16, bits: u64) -> Answer {
    let v = match f {
        232 => V128::v128_low32_zero(low32(bits)),
        233 => V128::v128_low64_zero(bits),
        254 => V128::v128_widen8x8_s(bits),
        255 => V128::v128_widen8x8_u(bits),
        256 => V128::v128_widen16x4_s(bits),
        257 => V128::v128_widen16x4_u(bits),
        258 => V128::v128_widen32x2_s(bits),
        259 => V128::v128_widen32x2_u(bits),
        _ => return Answer::none(),
    };
    Answer::vector(v)
}
