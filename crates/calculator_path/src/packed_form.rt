// The packed forms of one vector, as `calculator_packed_binary` has those of two. A step with no packed form is done lane by lane.
// By the standard's number, as `calculator_operation` says.
ghost use Rattle.std.specs.Prelude.{◌≡◌};
ghost use Rattle.standard.specs.Instruction.{instruction};
ghost use Rattle.simd.specs.Number.{number};
ghost use Rattle.calculator_families.specs.Family.{as_unary, as_shift, as_test};

use calculator_operation::test::truth;
use calculator_operation::{shift, test, unary};
use simd::V128;

pub fn unary(op: u16, a: V128) -> V128
    ensures { number result ≡ as_unary (instruction op) (number a) }
{
    match op {
        97 => packed_vector::i8x16_neg(a),
        98 => packed_vector::i8x16_popcnt(a),
        129 => packed_vector::i16x8_neg(a),
        161 => packed_vector::i32x4_neg(a),
        193 => packed_vector::i64x2_neg(a),
        _ => unary::unary(op, a),
    }
}

pub fn shift(op: u16, a: V128, count: u32) -> V128
    ensures { number result ≡ as_shift (instruction op) count (number a) }
{
    match op {
        107 => packed_vector::i8x16_shl(a, count),
        109 => packed_vector::i8x16_shr_u(a, count),
        139 => packed_vector::i16x8_shl(a, count),
        141 => packed_vector::i16x8_shr_u(a, count),
        171 => packed_vector::i32x4_shl(a, count),
        173 => packed_vector::i32x4_shr_u(a, count),
        203 => packed_vector::i64x2_shl(a, count),
        205 => packed_vector::i64x2_shr_u(a, count),
        _ => shift::shift(op, a, count),
    }
}

pub fn test(op: u16, a: V128) -> u32
    ensures { result ≡ as_test (instruction op) (number a) }
{
    match op {
        83 => truth(packed_vector::v128_any_true(a)),
        99 => truth(packed_vector::i8x16_all_true(a)),
        100 => packed_vector::i8x16_bitmask(a),
        131 => truth(packed_vector::i16x8_all_true(a)),
        132 => packed_vector::i16x8_bitmask(a),
        163 => truth(packed_vector::i32x4_all_true(a)),
        164 => packed_vector::i32x4_bitmask(a),
        195 => truth(packed_vector::i64x2_all_true(a)),
        196 => packed_vector::i64x2_bitmask(a),
        _ => test::test(op, a),
    }
}
