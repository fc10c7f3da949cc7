// A vector from three vectors: the standard's number chooses the method.
ghost use Rattle.std.specs.Prelude.{◌≡◌};
ghost use Rattle.standard.specs.Instruction.{instruction};
ghost use Rattle.simd.specs.Number.{number};
ghost use Rattle.calculator_families.specs.Family.{as_ternary};

use simd::V128;

// Of a number of another family: the first vector as it is.
pub fn ternary(op: u16, a: V128, b: V128, c: V128) -> V128
    ensures { number result ≡ as_ternary (instruction op) (number a) (number b) (number c) }
{
    match op {
        82 => a.v128_bitselect(b, c),
        265 => a.i8x16_relaxed_laneselect(b, c),
        266 => a.i16x8_relaxed_laneselect(b, c),
        267 => a.i32x4_relaxed_laneselect(b, c),
        268 => a.i64x2_relaxed_laneselect(b, c),
        275 => a.i32x4_relaxed_dot_i8x16_i7x16_add_s(b, c),
        _ => a,
    }
}
