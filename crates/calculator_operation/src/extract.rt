// Extract: a scalar of the instruction's kind from a lane.
ghost use Rattle.std.specs.Prelude.{◌≡◌};
ghost use Rattle.standard.specs.Instruction.{i32, i64, f32, f64, instruction};
ghost use Rattle.simd.specs.Number.{number};
ghost use Rattle.simd.specs.Answers.{i32_answer, u32_answer, i64_answer, f32_answer, f64_answer};
ghost use Rattle.calculator_scalar.specs.Scalar.{scalar_of};
ghost use Rattle.calculator_families.specs.Family.{of_kind, as_extract};

use calculator_scalar::Scalar;
use lane_float::{F32, F64};
use simd::V128;
use standard_refusal::Refusal;

const NOTHING: Scalar = Scalar::I32(0);

fn of_i32(answer: Result<i32, Refusal>) -> Scalar
    ensures { scalar_of result ≡ of_kind i32 (i32_answer answer) }
{
    match answer {
        Ok(x) => Scalar::I32(x),
        Err(_) => NOTHING,
    }
}

fn of_u32(answer: Result<u32, Refusal>) -> Scalar
    ensures { scalar_of result ≡ of_kind i32 (u32_answer answer) }
{
    match answer {
        Ok(x) => Scalar::of_bits(x),
        Err(_) => NOTHING,
    }
}

fn of_i64(answer: Result<i64, Refusal>) -> Scalar
    ensures { scalar_of result ≡ of_kind i64 (i64_answer answer) }
{
    match answer {
        Ok(x) => Scalar::I64(x),
        Err(_) => NOTHING,
    }
}

fn of_f32(answer: Result<F32, Refusal>) -> Scalar
    ensures { scalar_of result ≡ of_kind f32 (f32_answer answer) }
{
    match answer {
        Ok(x) => Scalar::F32(x),
        Err(_) => NOTHING,
    }
}

fn of_f64(answer: Result<F64, Refusal>) -> Scalar
    ensures { scalar_of result ≡ of_kind f64 (f64_answer answer) }
{
    match answer {
        Ok(x) => Scalar::F64(x),
        Err(_) => NOTHING,
    }
}

// Of a number of another family, or of a lane not below the lane count: i32 0.
pub fn extract(op: u16, a: V128, lane: u8) -> Scalar
    ensures { scalar_of result ≡ as_extract (instruction op) (number a) lane }
{
    match op {
        21 => of_i32(a.i8x16_extract_lane_s(lane)),
        22 => of_u32(a.i8x16_extract_lane_u(lane)),
        24 => of_i32(a.i16x8_extract_lane_s(lane)),
        25 => of_u32(a.i16x8_extract_lane_u(lane)),
        27 => of_i32(a.i32x4_extract_lane(lane)),
        29 => of_i64(a.i64x2_extract_lane(lane)),
        31 => of_f32(a.f32x4_extract_lane(lane)),
        33 => of_f64(a.f64x2_extract_lane(lane)),
        _ => NOTHING,
    }
}
