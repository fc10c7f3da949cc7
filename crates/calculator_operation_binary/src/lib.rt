// A vector from two vectors, lane by lane: the standard's number chooses the method (`calculator_operation` says why a number). By ranges, since one match of
// its 110 numbers would be one function of as many lines.
#![tactic(auto)]

ghost use Rattle.std.specs.Prelude.{◌≡◌, ◌≤◌, ◌<◌};
ghost use Rattle.standard.specs.Instruction.{instruction};
ghost use Rattle.simd.specs.Number.{number};
ghost use Rattle.calculator_families.specs.Family.{as_binary};

use simd::V128;

// Of a number of another family: the first vector as it is.
pub fn binary(op: u16, a: V128, b: V128) -> V128
    ensures { number result ≡ as_binary (instruction op) (number a) (number b) }
{
    match op {
        0..=54 => compare_i8x16_and_i16x8(op, a, b),
        55..=76 => compare_i32x4_and_floats(op, a, b),
        77..=129 => i8x16(op, a, b),
        130..=159 => i16x8(op, a, b),
        160..=191 => i32x4(op, a, b),
        192..=223 => i64x2(op, a, b),
        224..=255 => floats(op, a, b),
        _ => relaxed(op, a, b),
    }
}

// Swizzle too.
fn compare_i8x16_and_i16x8(op: u16, a: V128, b: V128) -> V128
    requires { op < 55 }
    ensures { number result ≡ as_binary (instruction op) (number a) (number b) }
{
    match op {
        14 => a.i8x16_swizzle(b),
        35 => a.i8x16_eq(b),
        36 => a.i8x16_ne(b),
        37 => a.i8x16_lt_s(b),
        38 => a.i8x16_lt_u(b),
        39 => a.i8x16_gt_s(b),
        40 => a.i8x16_gt_u(b),
        41 => a.i8x16_le_s(b),
        42 => a.i8x16_le_u(b),
        43 => a.i8x16_ge_s(b),
        44 => a.i8x16_ge_u(b),
        45 => a.i16x8_eq(b),
        46 => a.i16x8_ne(b),
        47 => a.i16x8_lt_s(b),
        48 => a.i16x8_lt_u(b),
        49 => a.i16x8_gt_s(b),
        50 => a.i16x8_gt_u(b),
        51 => a.i16x8_le_s(b),
        52 => a.i16x8_le_u(b),
        53 => a.i16x8_ge_s(b),
        54 => a.i16x8_ge_u(b),
        _ => a,
    }
}

fn compare_i32x4_and_floats(op: u16, a: V128, b: V128) -> V128
    requires { (55 ≤ op) × (op < 77) }
    ensures { number result ≡ as_binary (instruction op) (number a) (number b) }
{
    match op {
        55 => a.i32x4_eq(b),
        56 => a.i32x4_ne(b),
        57 => a.i32x4_lt_s(b),
        58 => a.i32x4_lt_u(b),
        59 => a.i32x4_gt_s(b),
        60 => a.i32x4_gt_u(b),
        61 => a.i32x4_le_s(b),
        62 => a.i32x4_le_u(b),
        63 => a.i32x4_ge_s(b),
        64 => a.i32x4_ge_u(b),
        65 => a.f32x4_eq(b),
        66 => a.f32x4_ne(b),
        67 => a.f32x4_lt(b),
        68 => a.f32x4_gt(b),
        69 => a.f32x4_le(b),
        70 => a.f32x4_ge(b),
        71 => a.f64x2_eq(b),
        72 => a.f64x2_ne(b),
        73 => a.f64x2_lt(b),
        74 => a.f64x2_gt(b),
        75 => a.f64x2_le(b),
        76 => a.f64x2_ge(b),
        _ => a,
    }
}

// Bitwise operations too.
fn i8x16(op: u16, a: V128, b: V128) -> V128
    requires { (77 ≤ op) × (op < 130) }
    ensures { number result ≡ as_binary (instruction op) (number a) (number b) }
{
    match op {
        78 => a.v128_and(b),
        79 => a.v128_andnot(b),
        80 => a.v128_or(b),
        81 => a.v128_xor(b),
        101 => a.i8x16_narrow_i16x8_s(b),
        102 => a.i8x16_narrow_i16x8_u(b),
        110 => a.i8x16_add(b),
        111 => a.i8x16_add_sat_s(b),
        112 => a.i8x16_add_sat_u(b),
        113 => a.i8x16_sub(b),
        114 => a.i8x16_sub_sat_s(b),
        115 => a.i8x16_sub_sat_u(b),
        118 => a.i8x16_min_s(b),
        119 => a.i8x16_min_u(b),
        120 => a.i8x16_max_s(b),
        121 => a.i8x16_max_u(b),
        123 => a.i8x16_avgr_u(b),
        _ => a,
    }
}

fn i16x8(op: u16, a: V128, b: V128) -> V128
    requires { (130 ≤ op) × (op < 160) }
    ensures { number result ≡ as_binary (instruction op) (number a) (number b) }
{
    match op {
        130 => a.i16x8_q15mulr_sat_s(b),
        133 => a.i16x8_narrow_i32x4_s(b),
        134 => a.i16x8_narrow_i32x4_u(b),
        142 => a.i16x8_add(b),
        143 => a.i16x8_add_sat_s(b),
        144 => a.i16x8_add_sat_u(b),
        145 => a.i16x8_sub(b),
        146 => a.i16x8_sub_sat_s(b),
        147 => a.i16x8_sub_sat_u(b),
        149 => a.i16x8_mul(b),
        150 => a.i16x8_min_s(b),
        151 => a.i16x8_min_u(b),
        152 => a.i16x8_max_s(b),
        153 => a.i16x8_max_u(b),
        155 => a.i16x8_avgr_u(b),
        156 => a.i16x8_extmul_low_i8x16_s(b),
        157 => a.i16x8_extmul_high_i8x16_s(b),
        158 => a.i16x8_extmul_low_i8x16_u(b),
        159 => a.i16x8_extmul_high_i8x16_u(b),
        _ => a,
    }
}

fn i32x4(op: u16, a: V128, b: V128) -> V128
    requires { (160 ≤ op) × (op < 192) }
    ensures { number result ≡ as_binary (instruction op) (number a) (number b) }
{
    match op {
        174 => a.i32x4_add(b),
        177 => a.i32x4_sub(b),
        181 => a.i32x4_mul(b),
        182 => a.i32x4_min_s(b),
        183 => a.i32x4_min_u(b),
        184 => a.i32x4_max_s(b),
        185 => a.i32x4_max_u(b),
        186 => a.i32x4_dot_i16x8_s(b),
        188 => a.i32x4_extmul_low_i16x8_s(b),
        189 => a.i32x4_extmul_high_i16x8_s(b),
        190 => a.i32x4_extmul_low_i16x8_u(b),
        191 => a.i32x4_extmul_high_i16x8_u(b),
        _ => a,
    }
}

fn i64x2(op: u16, a: V128, b: V128) -> V128
    requires { (192 ≤ op) × (op < 224) }
    ensures { number result ≡ as_binary (instruction op) (number a) (number b) }
{
    match op {
        206 => a.i64x2_add(b),
        209 => a.i64x2_sub(b),
        213 => a.i64x2_mul(b),
        214 => a.i64x2_eq(b),
        215 => a.i64x2_ne(b),
        216 => a.i64x2_lt_s(b),
        217 => a.i64x2_gt_s(b),
        218 => a.i64x2_le_s(b),
        219 => a.i64x2_ge_s(b),
        220 => a.i64x2_extmul_low_i32x4_s(b),
        221 => a.i64x2_extmul_high_i32x4_s(b),
        222 => a.i64x2_extmul_low_i32x4_u(b),
        223 => a.i64x2_extmul_high_i32x4_u(b),
        _ => a,
    }
}

fn floats(op: u16, a: V128, b: V128) -> V128
    requires { (224 ≤ op) × (op < 256) }
    ensures { number result ≡ as_binary (instruction op) (number a) (number b) }
{
    match op {
        228 => a.f32x4_add(b),
        229 => a.f32x4_sub(b),
        230 => a.f32x4_mul(b),
        231 => a.f32x4_div(b),
        232 => a.f32x4_min(b),
        233 => a.f32x4_max(b),
        234 => a.f32x4_pmin(b),
        235 => a.f32x4_pmax(b),
        240 => a.f64x2_add(b),
        241 => a.f64x2_sub(b),
        242 => a.f64x2_mul(b),
        243 => a.f64x2_div(b),
        244 => a.f64x2_min(b),
        245 => a.f64x2_max(b),
        246 => a.f64x2_pmin(b),
        247 => a.f64x2_pmax(b),
        _ => a,
    }
}

fn relaxed(op: u16, a: V128, b: V128) -> V128
    requires { 256 ≤ op }
    ensures { number result ≡ as_binary (instruction op) (number a) (number b) }
{
    match op {
        256 => a.i8x16_relaxed_swizzle(b),
        269 => a.f32x4_relaxed_min(b),
        270 => a.f32x4_relaxed_max(b),
        271 => a.f64x2_relaxed_min(b),
        272 => a.f64x2_relaxed_max(b),
        273 => a.i16x8_relaxed_q15mulr_s(b),
        274 => a.i16x8_relaxed_dot_i8x16_i7x16_s(b),
        _ => a,
    }
}
