// A vector shifted, lane by lane: the standard's number chooses the method.
ghost use Rattle.std.specs.Prelude.{◌≡◌};
ghost use Rattle.standard.specs.Instruction.{instruction};
ghost use Rattle.simd.specs.Number.{number};
ghost use Rattle.calculator_families.specs.Family.{as_shift};

use simd::V128;

// Of a number of another family: the vector as it is.
pub fn shift(op: u16, a: V128, count: u32) -> V128
    ensures { number result ≡ as_shift (instruction op) count (number a) }
{
    match op {
        107 => a.i8x16_shl(count),
        108 => a.i8x16_shr_s(count),
        109 => a.i8x16_shr_u(count),
        139 => a.i16x8_shl(count),
        140 => a.i16x8_shr_s(count),
        141 => a.i16x8_shr_u(count),
        171 => a.i32x4_shl(count),
        172 => a.i32x4_shr_s(count),
        173 => a.i32x4_shr_u(count),
        203 => a.i64x2_shl(count),
        204 => a.i64x2_shr_s(count),
        205 => a.i64x2_shr_u(count),
        _ => a,
    }
}
