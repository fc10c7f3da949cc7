// A vector from one vector, lane by lane: the standard's number chooses the method.
ghost use Rattle.std.specs.Prelude.{◌≡◌, ◌≤◌, ◌<◌};
ghost use Rattle.standard.specs.Instruction.{instruction};
ghost use Rattle.simd.specs.Number.{number};
ghost use Rattle.calculator_families.specs.Family.{as_unary};

use simd::V128;

// Of a number of another family: the vector as it is.
pub fn unary(op: u16, a: V128) -> V128
    ensures { number result ≡ as_unary (instruction op) (number a) }
{
    match op {
        0..=127 => v128_and_i8x16(op, a),
        128..=191 => i16x8_and_i32x4(op, a),
        _ => i64x2_and_floats(op, a),
    }
}

// Pairwise sums too, and the floats whose numbers stand between them.
fn v128_and_i8x16(op: u16, a: V128) -> V128
    requires { op < 128 }
    ensures { number result ≡ as_unary (instruction op) (number a) }
{
    match op {
        77 => a.v128_not(),
        94 => a.f32x4_demote_f64x2_zero(),
        95 => a.f64x2_promote_low_f32x4(),
        96 => a.i8x16_abs(),
        97 => a.i8x16_neg(),
        98 => a.i8x16_popcnt(),
        103 => a.f32x4_ceil(),
        104 => a.f32x4_floor(),
        105 => a.f32x4_trunc(),
        106 => a.f32x4_nearest(),
        116 => a.f64x2_ceil(),
        117 => a.f64x2_floor(),
        122 => a.f64x2_trunc(),
        124 => a.i16x8_extadd_pairwise_i8x16_s(),
        125 => a.i16x8_extadd_pairwise_i8x16_u(),
        126 => a.i32x4_extadd_pairwise_i16x8_s(),
        127 => a.i32x4_extadd_pairwise_i16x8_u(),
        _ => a,
    }
}

fn i16x8_and_i32x4(op: u16, a: V128) -> V128
    requires { (128 ≤ op) × (op < 192) }
    ensures { number result ≡ as_unary (instruction op) (number a) }
{
    match op {
        128 => a.i16x8_abs(),
        129 => a.i16x8_neg(),
        135 => a.i16x8_extend_low_i8x16_s(),
        136 => a.i16x8_extend_high_i8x16_s(),
        137 => a.i16x8_extend_low_i8x16_u(),
        138 => a.i16x8_extend_high_i8x16_u(),
        148 => a.f64x2_nearest(),
        160 => a.i32x4_abs(),
        161 => a.i32x4_neg(),
        167 => a.i32x4_extend_low_i16x8_s(),
        168 => a.i32x4_extend_high_i16x8_s(),
        169 => a.i32x4_extend_low_i16x8_u(),
        170 => a.i32x4_extend_high_i16x8_u(),
        _ => a,
    }
}

fn i64x2_and_floats(op: u16, a: V128) -> V128
    requires { 192 ≤ op }
    ensures { number result ≡ as_unary (instruction op) (number a) }
{
    match op {
        192 => a.i64x2_abs(),
        193 => a.i64x2_neg(),
        199 => a.i64x2_extend_low_i32x4_s(),
        200 => a.i64x2_extend_high_i32x4_s(),
        201 => a.i64x2_extend_low_i32x4_u(),
        202 => a.i64x2_extend_high_i32x4_u(),
        224 => a.f32x4_abs(),
        225 => a.f32x4_neg(),
        236 => a.f64x2_abs(),
        237 => a.f64x2_neg(),
        248 => a.i32x4_trunc_sat_f32x4_s(),
        249 => a.i32x4_trunc_sat_f32x4_u(),
        250 => a.f32x4_convert_i32x4_s(),
        251 => a.f32x4_convert_i32x4_u(),
        252 => a.i32x4_trunc_sat_f64x2_s_zero(),
        253 => a.i32x4_trunc_sat_f64x2_u_zero(),
        254 => a.f64x2_convert_low_i32x4_s(),
        255 => a.f64x2_convert_low_i32x4_u(),
        _ => a,
    }
}
