// A step and the trace that it leaves in its record.
ghost use Rattle.std.specs.Prelude.{◌≡◌, cond, ◌+◌, ◌*◌, ◌^◌, eqb};
ghost use Rattle.standard.specs.Refusal.{given, refused};
ghost use Rattle.standard.specs.Instruction.{kind_number};
ghost use Rattle.calculator_rules.specs.Definition;
ghost use Rattle.simd.specs.Number.{number};
ghost use Rattle.calculator_scalar.specs.Scalar.{kind_of, bits_of};
ghost use Rattle.calculator_state.specs.State.{held};
ghost use Rattle.recording_fields.specs.Definition.{trace};
ghost use Rattle.recording_rules.specs.Definition.{trace_of, next};

use calculator_scalar::Scalar;
use calculator_step::step;
use simd::V128;

// The scalar after a step, and its trace: the halves of the vector written, the number of the refusal, the scalar's kind and bits.
#[derive(Clone, Copy)]
pub struct Left {
    pub scalar: Scalar,
    pub lo: u64,
    pub hi: u64,
    // Numbers, as they stand in a record.
    pub refused: u8,
    pub kind: u8,
    pub bits: u64,
}

impl Left {
    fn of(scalar: Scalar, written: V128, refused: u8) -> Left
        ensures scalar { result.scalar ≡ scalar }
        ensures written { result.lo + 2 ^ 64 * result.hi ≡ number written }
        ensures refused { result.refused ≡ refused }
        ensures kind { result.kind ≡ kind_number (kind_of scalar) }
        ensures bits { result.bits ≡ bits_of scalar }
    {
        Left {
            scalar,
            lo: written.lo,
            hi: written.hi,
            refused,
            kind: scalar.kind().number(),
            bits: scalar.bits(),
        }
    }
}

// The step at a place, counted from 0. A refused step writes no vector and leaves the scalar as it was.
pub fn account(
    w: &mut [u64; 32],
    writers: &mut [u16; 16],
    scalar: Scalar,
    place: u8,
    s: &[u8],
) -> Left
    ensures traced { trace (result.lo + 2 ^ 64 * result.hi) result.refused result.kind result.bits ≡ trace_of place (held w.old writers.old scalar) s.now }
    ensures onward { held w.new writers.new result.scalar ≡ next place (held w.old writers.old scalar) s.now }
    ensures answer { cond (eqb result.refused 0) (given (held w.new writers.new result.scalar)) (refused result.refused) ≡ Definition.step place (held w.old writers.old scalar) s.now }
{
    match step(w, writers, scalar, place, s) {
        Ok(stepped) => Left::of(stepped.scalar, stepped.written, 0),
        Err(refusal) => Left::of(scalar, V128 { lo: 0, hi: 0 }, u8::from(refusal)),
    }
}
