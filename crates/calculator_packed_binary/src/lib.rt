// The packed forms of two vectors: each half of a vector as one number. A step with no packed form is done lane by lane. By the
// standard's number, as `calculator_operation` says.
#![tactic(auto)]

ghost use Rattle.std.specs.Prelude.{◌≡◌};
ghost use Rattle.standard.specs.Instruction.{instruction};
ghost use Rattle.simd.specs.Number.{number};
ghost use Rattle.calculator_families.specs.Family.{as_binary};

use simd::V128;

pub fn binary(op: u16, a: V128, b: V128) -> V128
    ensures { number result ≡ as_binary (instruction op) (number a) (number b) }
{
    match op {
        35 => packed_vector::i8x16_eq(a, b),
        45 => packed_vector::i16x8_eq(a, b),
        55 => packed_vector::i32x4_eq(a, b),
        110 => packed_vector::i8x16_add(a, b),
        113 => packed_vector::i8x16_sub(a, b),
        123 => packed_vector::i8x16_avgr_u(a, b),
        142 => packed_vector::i16x8_add(a, b),
        145 => packed_vector::i16x8_sub(a, b),
        155 => packed_vector::i16x8_avgr_u(a, b),
        174 => packed_vector::i32x4_add(a, b),
        177 => packed_vector::i32x4_sub(a, b),
        206 => packed_vector::i64x2_add(a, b),
        209 => packed_vector::i64x2_sub(a, b),
        214 => packed_vector::i64x2_eq(a, b),
        _ => calculator_operation_binary::binary(op, a, b),
    }
}
