// A number from a vector, lane by lane: the standard's number chooses the method.
ghost use Rattle.std.specs.Prelude.{◌≡◌, cond};
ghost use Rattle.standard.specs.Instruction.{instruction};
ghost use Rattle.simd.specs.Number.{number};
ghost use Rattle.calculator_families.specs.Family.{as_test};

use simd::V128;

// Any-true and all-true are 1 or 0.
pub fn truth(t: bool) -> u32
    ensures { result ≡ cond t 1 0 }
{
    if t { 1 } else { 0 }
}

// Of a number of another family: 0.
pub fn test(op: u16, a: V128) -> u32
    ensures { result ≡ as_test (instruction op) (number a) }
{
    match op {
        83 => truth(a.v128_any_true()),
        99 => truth(a.i8x16_all_true()),
        100 => a.i8x16_bitmask(),
        131 => truth(a.i16x8_all_true()),
        132 => a.i16x8_bitmask(),
        163 => truth(a.i32x4_all_true()),
        164 => a.i32x4_bitmask(),
        195 => truth(a.i64x2_all_true()),
        196 => a.i64x2_bitmask(),
        _ => 0,
    }
}
