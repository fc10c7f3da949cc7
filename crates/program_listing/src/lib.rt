// The listing of document 01 with the numbers of document 02's order 1: fixed byte strings around fields of digits, put into a lent buffer.
#![tactic(auto)]

ghost use Rattle.std.specs.Prelude.{◌≡◌, ◌++◌, map};
ghost use Rattle.standard.specs.Lanes;
ghost use Rattle.calculator_scalar.specs.Scalar.{kind_of, bits_of};
ghost use Rattle.simd.specs.Number.{number};
ghost use Rattle.calculator_state.specs.State.{machine};
ghost use Rattle.calculator_limits.specs.Outcome.{outcome_of};
ghost use Rattle.program_digits.specs.Codes.{codes};
ghost use Rattle.program_digits.specs.Digits.{hex, hex_bytes};
ghost use Rattle.program_digits.specs.Put.{Wrote};
ghost use Rattle.program_listing.specs.Listing.{nonzero_line, register_line, register_lines, scalar_line, listing, refused_by};

use calculator_limits::Outcome;
use calculator_scalar::Scalar;
use calculator_state::State;
use program_digits::{put, put_count, put_hex_bytes, put_hex8, put_hex16, put_two_decimals};
use simd::V128;

// The eight bytes of a half, low byte first.
fn put_half(out: &mut [u8], at: usize, half: u64) -> usize
    ensures { Wrote out.old at (hex_bytes (Lanes.digits 8 8 half)) out.new result }
{
    let mut next = at;
    let mut rest = half;
    for i in 0..8usize {
        let low = [(rest % 256) as u8];
        next = put_hex_bytes(out, next, &low);
        rest /= 256;
    }
    next
}

// The bytes of a vector are its lanes of 8 bits.
fn put_vector(out: &mut [u8], at: usize, v: V128) -> usize
    ensures { Wrote out.old at (hex_bytes (Lanes.lanes 8 (number v))) out.new result }
{
    let next = put_half(out, at, v.lo);
    put_half(out, next, v.hi)
}

fn put_nonzero(out: &mut [u8], at: usize, i: u8, v: V128, writer: u16) -> usize
    ensures { Wrote out.old at (nonzero_line i (number v) writer) out.new result }
{
    let next = put(out, at, b"r");
    let next = put_two_decimals(out, next, i);
    let next = put(out, next, b" ");
    let next = put_vector(out, next, v);
    put_count(out, next, b" ", writer as u64)
}

fn put_register(out: &mut [u8], at: usize, i: u8, v: V128, writer: u16) -> usize
    ensures { Wrote out.old at (register_line i (number v) writer) out.new result }
{
    if (v.lo == 0) & (v.hi == 0) {
        return at;
    }
    put_nonzero(out, at, i, v, writer)
}

fn put_registers(out: &mut [u8], at: usize, all: [V128; 16], writers: [u16; 16]) -> usize
    ensures { Wrote out.old at (register_lines 0 (map number all) writers) out.new result }
{
    let mut next = at;
    for i in 0..16 {
        next = put_register(out, next, i as u8, all[i], writers[i]);
    }
    next
}

fn put_narrow(out: &mut [u8], at: usize, name: &[u8], bits: u64) -> usize
    ensures { Wrote out.old at (name.now ++ (hex 8 bits ++ codes "\n")) out.new result }
{
    let next = put(out, at, name);
    let next = put_hex8(out, next, bits);
    put(out, next, b"\n")
}

fn put_wide(out: &mut [u8], at: usize, name: &[u8], bits: u64) -> usize
    ensures { Wrote out.old at (name.now ++ (hex 16 bits ++ codes "\n")) out.new result }
{
    let next = put(out, at, name);
    let next = put_hex16(out, next, bits);
    put(out, next, b"\n")
}

fn put_scalar(out: &mut [u8], at: usize, s: Scalar) -> usize
    ensures { Wrote out.old at (scalar_line (kind_of s) (bits_of s)) out.new result }
{
    let bits = s.bits();
    match s {
        Scalar::I32(_) => put_narrow(out, at, b"s i32 ", bits),
        Scalar::I64(_) => put_wide(out, at, b"s i64 ", bits),
        Scalar::F32(_) => put_narrow(out, at, b"s f32 ", bits),
        Scalar::F64(_) => put_wide(out, at, b"s f64 ", bits),
    }
}

pub fn put_listing(out: &mut [u8], at: usize, state: State, done: usize, refused: u8) -> usize
    ensures { Wrote out.old at (listing (machine state) done refused) out.new result }
{
    let all = state.registers;
    let writers = state.writers;
    let held = state.scalar;
    let next = put_count(out, at, b"steps ", done as u64);
    let next = put_registers(out, next, all, writers);
    let next = put_scalar(out, next, held);
    put_count(out, next, b"refused ", refused as u64)
}

// The number of a refusal, 0 for none.
pub fn refused_by(outcome: Outcome) -> u8
    ensures { result ≡ refused_by (outcome_of outcome) }
{
    match outcome {
        Outcome::Ended => 0,
        Outcome::Paused(_) => 0,
        Outcome::Refused(refusal) => u8::from(refusal),
    }
}
