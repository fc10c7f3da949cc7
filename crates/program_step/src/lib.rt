// One step, written as a line of text.
#![tactic(auto)]

ghost use Rattle.std.specs.Prelude.{◌+◌, ◌≤◌, ◌≡◌};
ghost use Rattle.program_digits.specs.Put.{Wrote};
ghost use Rattle.program_fields.specs.Values.{field_of};
ghost use Rattle.program_line.specs.Line.{line as the-line};
ghost use Rattle.program_step.specs.Shown;
ghost use Rattle.program_step.specs.Shown.{field, fields, mark, plain, whole, shown};

use calculator_rules::fields;
use program_fields::Field;

fn put_byte(out: &mut [u8], at: usize, place: usize, b: u8) -> usize
    ensures { Wrote out.old at (field (field_of Field.Byte) place b) out.new result }
{
    let one = [b];
    if place % 4 == 0 {
        let next = program_digits::put(out, at, b" ");
        return program_digits::put_hex_bytes(out, next, &one);
    }
    program_digits::put_hex_bytes(out, at, &one)
}

fn put_field(out: &mut [u8], at: usize, kind: Field, place: usize, b: u8) -> usize
    ensures { Wrote out.old at (field (field_of kind) place b) out.new result }
{
    match kind {
        Field::Register => program_digits::put_number(out, at, b" r", b as u64),
        Field::Lane => program_digits::put_number(out, at, b" ", b as u64),
        Field::Mark => program_digits::put_number(out, at, b" ", b as u64),
        Field::Byte => put_byte(out, at, place, b),
    }
}

fn put_fields(
    out: &mut [u8],
    at: usize,
    kind: Field,
    count: usize,
    place: usize,
    step: &[u8],
) -> usize
    requires { place + count ≤ 32 }
    ensures { Wrote out.old at (fields (field_of kind) count place step.now) out.new result }
{
    let mut next = at;
    for i in 0..count {
        next = put_field(out, next, kind, place + i, fields::byte(step, place + i));
    }
    next
}

fn put_mark(out: &mut [u8], at: usize, m: u8) -> usize
    ensures { Wrote out.old at (mark m) out.new result }
{
    if m == 0 {
        return at;
    }
    let next = program_digits::put(out, at, b" packed");
    if m == 1 {
        return next;
    }
    put_field(out, next, Field::Mark, 7, m)
}

fn put_whole(out: &mut [u8], at: usize, step: &[u8]) -> usize
    ensures { Wrote out.old at (whole step.now) out.new result }
{
    let next = program_digits::put(out, at, b"step");
    put_fields(out, next, Field::Byte, 32, 0, step)
}

fn put_plain(out: &mut [u8], at: usize, step: &[u8]) -> usize
    ensures { Wrote out.old at (plain step.now) out.new result }
{
    let n = fields::operation(step);
    let t = program_forms::of(n);
    let after_name = program_names::put_name(out, at, n as usize);
    let after_registers = put_fields(out, after_name, Field::Register, t.registers, t.first, step);
    let after_lane = put_fields(out, after_registers, Field::Lane, t.lanes, 6, step);
    let after_bytes = put_fields(out, after_lane, Field::Byte, t.bytes, 16, step);
    put_mark(out, after_bytes, fields::byte(step, 7))
}

// Whether a line stands for a step.
fn says(line: &[u8], step: &[u8]) -> bool
    ensures { result ≡ Shown.says (the-line line.now) step.now }
{
    match program_line::read_line(line) {
        Ok(Some(back)) => program_words::same(&back, step),
        _ => false,
    }
}

// Puts the line of a step, without a line's end, into a lent slice from a place on, and answers the place after it.
pub fn put_step(out: &mut [u8], at: usize, step: &[u8]) -> usize
    ensures { Wrote out.old at (shown step.now) out.new result }
{
    let mut trial = [0u8; 256];
    let n = put_plain(&mut trial, 0, step);
    if says(&trial[..n], step) {
        return program_digits::put(out, at, &trial[..n]);
    }
    put_whole(out, at, step)
}
