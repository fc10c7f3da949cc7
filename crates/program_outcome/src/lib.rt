// What a step of a field recording left, as a line: the vector written, the scalar and the refusal. Of a record of 64 bytes it is the second half.
#![tactic(auto)]

ghost use Rattle.std.specs.Prelude.{◌≡◌};
ghost use Rattle.calculator_rules.specs.Definition.{bytes};
ghost use Rattle.program_digits.specs.Digits.{hex_bytes};
ghost use Rattle.program_digits.specs.Put.{Wrote};
ghost use Rattle.program_outcome.specs.Outcome.{kind_name, scalar_digits, left_line};

use calculator_rules::fields::byte;
use program_digits::{put, put_count, put_hex_bytes};

// The vector written.
fn put_vector(out: &mut [u8], at: usize, r: &[u8]) -> usize
    ensures { Wrote out.old at (hex_bytes (bytes r.now 32 16)) out.new result }
{
    let mut next = at;
    for i in 0..16usize {
        let one = [byte(r, 32 + i)];
        next = put_hex_bytes(out, next, &one);
    }
    next
}

fn put_kind(out: &mut [u8], at: usize, kind: u8) -> usize
    ensures { Wrote out.old at (kind_name kind) out.new result }
{
    if kind == 0 {
        return put(out, at, b" s i32 ");
    }
    if kind == 1 {
        return put(out, at, b" s i64 ");
    }
    if kind == 2 {
        return put(out, at, b" s f32 ");
    }
    put(out, at, b" s f64 ")
}

fn put_scalar(out: &mut [u8], at: usize, r: &[u8]) -> usize
    ensures { Wrote out.old at (scalar_digits r.now) out.new result }
{
    let low = [byte(r, 59), byte(r, 58), byte(r, 57), byte(r, 56)];
    let kind = byte(r, 49);
    if (kind == 1) | (kind == 3) {
        let high = [byte(r, 63), byte(r, 62), byte(r, 61), byte(r, 60)];
        let next = put_hex_bytes(out, at, &high);
        return put_hex_bytes(out, next, &low);
    }
    put_hex_bytes(out, at, &low)
}

pub fn put_left(out: &mut [u8], at: usize, r: &[u8]) -> usize
    ensures { Wrote out.old at (left_line r.now) out.new result }
{
    let next = put(out, at, b"  vector ");
    let next = put_vector(out, next, r);
    let next = put_kind(out, next, byte(r, 49));
    let next = put_scalar(out, next, r);
    put_count(out, next, b" refused ", byte(r, 48) as u64)
}
