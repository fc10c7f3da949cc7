// What the calculator is handed, and what comes back of a run.
ghost use Rattle.std.specs.Prelude.{◌%◌, ◌^◌, ◌≡◌};
ghost use Rattle.standard.specs.Instruction.{i64, f32, f64};
ghost use Rattle.calculator_scalar.specs.Scalar.{kind_of, bits_of, scalar_of};
ghost use Rattle.calculator_limits.specs.Outcome.{outcome_of};
ghost use Rattle.link_station.specs.Calculate.{told, scalar_numbers, stop_numbers, run_numbers};

use calculator_limits::Outcome;
use calculator_scalar::Scalar;
use lane_float::{F32, F64};
use lane_integer::Lane;

// The calculator's scalar. Kind 0 is an i32, 1 an i64, 2 an f32, 3 an f64, as in a recording, and any other stands for 0; of a kind of 32 bits the low bits
// count.
#[repr(C)]
#[derive(Clone, Copy)]
pub struct KindAndBits {
    pub kind: u8,
    pub bits: u64,
}

// What a run leaves beside the registers: the scalar, the steps done, and how it stopped. Paused: the place to take up from. Refused: the number, 1 to 6, 17 or
// 19; else 0. Neither: the list has ended. What says nothing is 0.
#[repr(C)]
#[derive(Clone, Copy)]
pub struct RunAnswer {
    pub scalar: KindAndBits,
    pub done: usize,
    pub place: usize,
    pub paused: bool,
    pub refused: u8,
}

// What a step leaves beside the registers: the scalar, and the number of a refusal, 2 to 6; else 0.
#[repr(C)]
#[derive(Clone, Copy)]
pub struct StepAnswer {
    pub scalar: KindAndBits,
    pub refused: u8,
}

fn low32(x: u64) -> u32
    ensures { result ≡ x % 2 ^ 32 }
{
    (x % 4294967296) as u32
}

fn i64_of(bits: u64) -> Scalar
    ensures { scalar_of result ≡ (i64, bits) }
{
    Scalar::I64(bits.signed())
}

fn f32_of(bits: u32) -> Scalar
    ensures { scalar_of result ≡ (f32, bits) }
{
    Scalar::F32(F32::from_bits(bits))
}

fn f64_of(bits: u64) -> Scalar
    ensures { scalar_of result ≡ (f64, bits) }
{
    Scalar::F64(F64::from_bits(bits))
}

pub fn scalar_of(given: KindAndBits) -> Scalar
    ensures { scalar_of result ≡ told given.kind given.bits }
{
    let kind = given.kind;
    let bits = given.bits;
    if kind == 1 {
        return i64_of(bits);
    }
    if kind == 2 {
        return f32_of(low32(bits));
    }
    if kind == 3 {
        return f64_of(bits);
    }
    Scalar::of_bits(low32(bits))
}

pub fn kind_and_bits(scalar: Scalar) -> KindAndBits
    ensures { (result.kind, result.bits) ≡ scalar_numbers (kind_of scalar) (bits_of scalar) }
{
    KindAndBits {
        kind: scalar.kind().number(),
        bits: scalar.bits(),
    }
}

pub fn run_answer(scalar: KindAndBits, done: usize, outcome: Outcome) -> RunAnswer
    ensures { run_numbers result ≡ ((scalar.kind, scalar.bits), done, stop_numbers (outcome_of outcome)) }
{
    match outcome {
        Outcome::Ended => RunAnswer {
            scalar,
            done,
            place: 0,
            paused: false,
            refused: 0,
        },
        Outcome::Paused(place) => RunAnswer {
            scalar,
            done,
            place,
            paused: true,
            refused: 0,
        },
        Outcome::Refused(refusal) => RunAnswer {
            scalar,
            done,
            place: 0,
            paused: false,
            refused: u8::from(refusal),
        },
    }
}
