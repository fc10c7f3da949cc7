// A step: decided, judged, and done where it is not refused. "Sources are read before the destination is written".
#![tactic(auto)]

ghost use Rattle.std.specs.Prelude.{◌≡◌, List, cond, ℕ, ◌%◌, get_or, IfOk, OnErr};
ghost use Rattle.standard.specs.Instruction.{instruction};
ghost use Rattle.calculator_rules.specs.Definition;
ghost use Rattle.calculator_rules.specs.Shape.{profile_of};
ghost use Rattle.simd.specs.Number.{number};
ghost use Rattle.calculator_scalar.specs.Scalar.{kind_of, bits_of};
ghost use Rattle.calculator_state.specs.State.{vectors, held};
ghost use Rattle.calculator_step.specs.Done.{makes, sets};
ghost use Rattle.calculator_step.specs.Stepped.{answer_of, vector_left};

use calculator_judging::judge;
use calculator_numbering::number;
use calculator_operation::extract::extract;
use calculator_operation::given;
use calculator_operation::replace::replace;
use calculator_operation::splat::splat;
use calculator_operation::ternary::ternary;
use calculator_path::Path;
use calculator_rules::fields::{byte, indices, operation};
use calculator_rules::shape::Shape;
use calculator_scalar::Scalar;
use calculator_shape::decide;
use calculator_state::registers::{get, put, source_a, source_b, source_c};
use simd::V128;
use standard_refusal::Refusal;

// What a step leaves beside the registers: the scalar, and "the 16-byte vector written (zeros if none)" (document 02, order 8).
#[derive(Clone, Copy)]
pub struct Stepped {
    pub scalar: Scalar,
    pub written: V128,
}

// A step that wrote no vector.
fn unwritten(scalar: Scalar) -> Stepped
    ensures { (result.scalar ≡ scalar) × (number result.written ≡ 0) }
{
    Stepped {
        scalar,
        written: V128 { lo: 0, hi: 0 },
    }
}

// The vector that a step of a shape makes; source a where it makes none.
fn make(w: &[u64; 32], scalar: Scalar, shape: Shape, op: u16, path: Path, s: &[u8]) -> V128
    ensures { number result ≡ makes shape (instruction op) (vectors w.now) (kind_of scalar) (bits_of scalar) s.now }
{
    let a = source_a(w, s);
    match shape {
        Shape::None => a,
        Shape::Constant => V128::join8(indices(s)),
        Shape::Shuffle => given::vector(a.i8x16_shuffle(source_b(w, s), indices(s)), a),
        Shape::Unary => calculator_path::unary(op, path, a),
        Shape::Binary => calculator_path::binary(op, path, a, source_b(w, s)),
        Shape::Ternary => ternary(op, a, source_b(w, s), source_c(w, s)),
        Shape::Shift => calculator_path::shift(op, path, a, scalar.count()),
        Shape::Test => a,
        Shape::Splat(_) => splat(op, scalar),
        Shape::Extract(_) => a,
        Shape::Replace(_, _) => replace(op, a, byte(s, 6), scalar),
    }
}

// "Extract, bitmask, any-true and all-true set [the scalar]"; every other step writes its vector to the destination. Whatever numbers stand beside the
// registers.
fn perform(w: &mut [u64; 32], scalar: Scalar, shape: Shape, op: u16, s: &[u8]) -> Stepped
    ensures state { (n : List ℕ) → held w.new n result.scalar ≡ sets shape (instruction op) (held w.old n scalar) s.now }
    ensures vector { number result.written ≡ cond (profile_of shape).gives_vector (get_or (vectors w.new) (Definition.destination s.now % 16) 0) 0 }
{
    let path = Path::from(byte(s, 7));
    match shape {
        Shape::None => unwritten(scalar),
        Shape::Test => unwritten(Scalar::of_bits(calculator_path::test(op, path, source_a(w, s)))),
        Shape::Extract(_) => unwritten(extract(op, source_a(w, s), byte(s, 6))),
        _ => {
            let v = make(w, scalar, shape, op, path, s);
            let to = byte(s, 2);
            put(w, to, v);
            Stepped {
                scalar,
                written: get(w, to),
            }
        }
    }
}

// The step at a place, counted from 0. A refused step leaves the registers and their writers as they were.
pub fn step(
    w: &mut [u64; 32],
    writers: &mut [u16; 16],
    scalar: Scalar,
    place: u8,
    s: &[u8],
) -> Result<Stepped, Refusal>
    ensures result { answer_of result w.new writers.new ≡ Definition.step place (held w.old writers.old scalar) s.now }
    ensures left { OnErr result ((w.new ≡ w.old) × (writers.new ≡ writers.old)) }
    ensures vector { IfOk result (λ left. number left.written ≡ vector_left w.new s.now) }
{
    let op = operation(s);
    let shape = decide(op);
    let judged = judge(shape, scalar.kind(), s);
    number(writers, shape, judged, place, s);
    judged?;
    Ok(perform(w, scalar, shape, op, s))
}
