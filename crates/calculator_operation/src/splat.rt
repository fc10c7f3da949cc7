// Splat: a vector from the scalar, "an enum whose cases carry the number itself", by its kind.
ghost use Rattle.std.specs.Prelude.{◌≡◌};
ghost use Rattle.standard.specs.Integer.{modulo};
ghost use Rattle.standard.specs.Instruction.{i32, instruction};
ghost use Rattle.simd.specs.Number.{number};
ghost use Rattle.calculator_scalar.specs.Scalar.{kind_of, bits_of};
ghost use Rattle.calculator_families.specs.Family.{as_splat};

use calculator_scalar::{Scalar, low8, low16};
use simd::V128;

const ZERO: V128 = V128 { lo: 0, hi: 0 };

// Of a number of another family, or of a scalar of another kind: 0.
pub fn splat(op: u16, scalar: Scalar) -> V128
    ensures { number result ≡ as_splat (kind_of scalar) (instruction op) (bits_of scalar) }
{
    match scalar {
        Scalar::I32(x) => i32_lanes(op, x),
        Scalar::I64(x) => { if op == 18 { V128::i64x2_splat(x) } else { ZERO } }
        Scalar::F32(x) => { if op == 19 { V128::f32x4_splat(x) } else { ZERO } }
        Scalar::F64(x) => { if op == 20 { V128::f64x2_splat(x) } else { ZERO } }
    }
}

fn i32_lanes(op: u16, x: i32) -> V128
    ensures { number result ≡ as_splat i32 (instruction op) (modulo 32 x) }
{
    match op {
        15 => V128::i8x16_splat(low8(x)),
        16 => V128::i16x8_splat(low16(x)),
        17 => V128::i32x4_splat(x),
        _ => ZERO,
    }
}
