// Replace: a vector with a lane from the scalar, by its kind.
ghost use Rattle.std.specs.Prelude.{◌≡◌};
ghost use Rattle.standard.specs.Integer.{modulo};
ghost use Rattle.standard.specs.Instruction.{i32, instruction};
ghost use Rattle.simd.specs.Number.{number};
ghost use Rattle.calculator_scalar.specs.Scalar.{kind_of, bits_of};
ghost use Rattle.calculator_families.specs.Family.{as_replace};

use crate::given::vector;
use calculator_scalar::{Scalar, low8, low16};
use simd::V128;

// Of a number of another family, of a scalar of another kind, or of a lane not below the lane count: the vector as it is.
pub fn replace(op: u16, a: V128, lane: u8, scalar: Scalar) -> V128
    ensures { number result ≡ as_replace (kind_of scalar) (instruction op) (number a) lane (bits_of scalar) }
{
    match scalar {
        Scalar::I32(x) => i32_lanes(op, a, lane, x),
        Scalar::I64(x) => {
            if op == 30 {
                vector(a.i64x2_replace_lane(lane, x), a)
            } else {
                a
            }
        }
        Scalar::F32(x) => {
            if op == 32 {
                vector(a.f32x4_replace_lane(lane, x), a)
            } else {
                a
            }
        }
        Scalar::F64(x) => {
            if op == 34 {
                vector(a.f64x2_replace_lane(lane, x), a)
            } else {
                a
            }
        }
    }
}

fn i32_lanes(op: u16, a: V128, lane: u8, x: i32) -> V128
    ensures { number result ≡ as_replace i32 (instruction op) (number a) lane (modulo 32 x) }
{
    match op {
        23 => vector(a.i8x16_replace_lane(lane, low8(x)), a),
        26 => vector(a.i16x8_replace_lane(lane, low16(x)), a),
        28 => vector(a.i32x4_replace_lane(lane, x), a),
        _ => a,
    }
}
