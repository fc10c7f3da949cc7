// One field of a step, read where it stands in a line: a register, a lane, a mark, or a byte.
#![tactic(auto)]

ghost use Rattle.std.specs.Prelude.{◌≤◌, ◌≡◌, length, drop};
ghost use Rattle.program_arguments.specs.Arguments.{decimal};
ghost use Rattle.program_fields.specs.Fields.{between, number_in, as_byte, find};
ghost use Rattle.program_fields.specs.Values.{field_of, Finds};

use program_words::Stop;

// How a field is written: `r0` to `r15`; 0 to 255; 1 to 255; two hex digits.
#[derive(Clone, Copy)]
pub enum Field {
    Register,
    Lane,
    Mark,
    Byte,
}

fn within(line: &[u8], low: u8, high: u8, word: &[u8], next: usize) -> Option<(u8, usize)>
    requires { next ≤ length line.now }
    ensures { Finds line.now (between low high (drop next line.now) (decimal word.now)) result }
{
    let n = u8::try_from(program_arguments::decimal(word)?).ok()?;
    if (low..=high).contains(&n) {
        Some((n, next))
    } else {
        None
    }
}

// Two hex digits, of either case.
fn byte(line: &[u8], at: usize) -> Option<(u8, usize)>
    requires { at ≤ length line.now }
    ensures { Finds line.now (as_byte (drop at line.now)) result }
{
    let [high, low, ..] = &line[at..] else {
        return None;
    };
    let high = program_arguments::digit(*high);
    if high >= 16 {
        return None;
    }
    let low = program_arguments::digit(*low);
    if low >= 16 {
        return None; // one digit is no byte
    }
    Some((high * 16 + low, at + 2))
}

fn register(line: &[u8], at: usize) -> Option<(u8, usize)>
    requires { at ≤ length line.now }
    ensures { Finds line.now (find (field_of Field.Register) (drop at line.now)) result }
{
    let end = program_words::scan(line, at, Stop::Blank);
    let [b'r', digits @ ..] = &line[at..end] else {
        return None;
    };
    within(line, 0, 15, digits, end)
}

fn number(line: &[u8], at: usize, low: u8, high: u8) -> Option<(u8, usize)>
    requires { at ≤ length line.now }
    ensures { Finds line.now (number_in low high (drop at line.now)) result }
{
    let end = program_words::scan(line, at, Stop::Blank);
    within(line, low, high, &line[at..end], end)
}

// The field at a place of a line, and the place after it; none past the line's end.
pub fn read(line: &[u8], kind: Field, at: usize) -> Option<(u8, usize)>
    ensures { Finds line.now (find (field_of kind) (drop at line.now)) result }
{
    if at > line.len() {
        return None;
    }
    match kind {
        Field::Register => register(line, at),
        Field::Lane => number(line, at, 0, 255),
        Field::Mark => number(line, at, 1, 255),
        Field::Byte => byte(line, at),
    }
}
