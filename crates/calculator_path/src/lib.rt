// An operation by the path that a step's mark asks for. What it makes is the same, so no promise of an operation names the path.
#![tactic(auto)]

mod packed_form;

ghost use Rattle.std.specs.Prelude.{◌≡◌};
ghost use Rattle.standard.specs.Instruction.{instruction};
ghost use Rattle.simd.specs.Number.{number};
ghost use Rattle.calculator_families.specs.Family.{as_unary, as_binary, as_shift, as_test};
ghost use Rattle.calculator_path.specs.Mark.{path_of};

use simd::V128;

/// The two ways to do a step.
#[derive(Clone, Copy, PartialEq, Eq, Debug)]
pub enum Path {
    LaneByLane,
    Packed,
}

impl From<u8> for Path {
    ghost from_gives = { λ mark path. path ≡ path_of mark };

    fn from(mark: u8) -> Path {
        match mark {
            0 => Path::LaneByLane,
            _ => Path::Packed,
        }
    }
}

pub fn unary(op: u16, path: Path, a: V128) -> V128
    ensures { number result ≡ as_unary (instruction op) (number a) }
{
    match path {
        Path::LaneByLane => calculator_operation::unary::unary(op, a),
        Path::Packed => packed_form::unary(op, a),
    }
}

pub fn binary(op: u16, path: Path, a: V128, b: V128) -> V128
    ensures { number result ≡ as_binary (instruction op) (number a) (number b) }
{
    match path {
        Path::LaneByLane => calculator_operation_binary::binary(op, a, b),
        Path::Packed => calculator_packed_binary::binary(op, a, b),
    }
}

pub fn shift(op: u16, path: Path, a: V128, count: u32) -> V128
    ensures { number result ≡ as_shift (instruction op) count (number a) }
{
    match path {
        Path::LaneByLane => calculator_operation::shift::shift(op, a, count),
        Path::Packed => packed_form::shift(op, a, count),
    }
}

pub fn test(op: u16, path: Path, a: V128) -> u32
    ensures { result ≡ as_test (instruction op) (number a) }
{
    match path {
        Path::LaneByLane => calculator_operation::test::test(op, a),
        Path::Packed => packed_form::test(op, a),
    }
}
