// One line of the text of a step list, read: the step that it stands for, or why it stands for none.
#![tactic(auto)]

ghost use Rattle.std.specs.Prelude.{◌+◌, ◌≤◌, ◌<◌, ◌≡◌, Ok, length, drop};
ghost use Rattle.program_words.specs.Cut.{skip};
ghost use Rattle.program_fields.specs.Values.{field_of};
ghost use Rattle.program_forms.specs.Takes.{takes_of};
ghost use Rattle.program_forms.proofs.Fits.{Fitting};
ghost use Rattle.program_line.specs.Line;
ghost use Rattle.program_line.specs.Line.{field_expected, take_field, take_fields, take_form, take_packed, end_line, named, stated, line as the-line};
ghost use Rattle.program_line.specs.Reads.{state_of, number_of, Stands, ReadAs};

use program_fields::Field;
use program_forms::Takes;
use program_words::Stop;

// Why a line stands for no step, or a text for no list, each with its number.
#[derive(Clone, Copy, PartialEq, Eq, Debug)]
pub enum Reason {
    Name = 1,
    Register = 2,
    Lane = 3,
    Byte = 4,
    Mark = 5,
    TooMuch = 6,
    // "above 256 steps"
    Steps = 7,
    // "above 65536 bytes"
    Bytes = 8,
}

impl From<Reason> for u8 {
    ghost from_gives = { λ reason number. number ≡ number_of reason };

    fn from(reason: Reason) -> u8 {
        reason as u8
    }
}

// A line that is being read: the place that is reached, and the step so far.
#[derive(Clone, Copy)]
pub struct Reading {
    pub at: usize,
    pub step: [u8; 32],
}

fn expected(kind: Field) -> Reason
    ensures { number_of result ≡ field_expected (field_of kind) }
{
    match kind {
        Field::Register => Reason::Register,
        Field::Lane => Reason::Lane,
        Field::Byte => Reason::Byte,
        Field::Mark => Reason::Mark,
    }
}

// A field read, and stored at its place.
fn take_field(line: &[u8], r: Reading, kind: Field, place: usize) -> Result<Reading, Reason>
    requires at_in_bounds { r.at ≤ length line.now }
    requires place_bound { place < 32 }
    ensures { Stands line.now result (take_field (field_of kind) place) r }
{
    let at = program_words::scan(line, r.at, Stop::Word);
    let Some((n, next)) = program_fields::read(line, kind, at) else {
        return Err(expected(kind));
    };
    let mut step = r.step;
    step[place] = n;
    Ok(Reading { at: next, step })
}

fn take_fields(
    line: &[u8],
    r: Reading,
    kind: Field,
    count: usize,
    place: usize,
) -> Result<Reading, Reason>
    requires at_in_bounds { r.at ≤ length line.now }
    requires count_bound { place + count ≤ 32 }
    ensures { Stands line.now result (take_fields (field_of kind) count place) r }
{
    let mut r = r;
    for i in 0..count {
        r = take_field(line, r, kind, place + i)?;
    }
    Ok(r)
}

fn take_form(line: &[u8], r: Reading, t: Takes) -> Result<Reading, Reason>
    requires at_in_bounds { r.at ≤ length line.now }
    requires fitting { Fitting (takes_of t) }
    ensures { Stands line.now result (take_form (takes_of t)) r }
{
    let with_registers = take_fields(line, r, Field::Register, t.registers, t.first)?;
    let with_lane = take_fields(line, with_registers, Field::Lane, t.lanes, 6)?;
    take_fields(line, with_lane, Field::Byte, t.bytes, 16)
}

// `packed` alone: mark 1; `packed` and a number: that mark. A blank stands before it, where bytes stand before it too.
fn take_packed(line: &[u8], r: Reading) -> Result<Reading, Reason>
    requires { r.at ≤ length line.now }
    ensures { Stands line.now result take_packed r }
{
    let from = r.at;
    let at = program_words::scan(line, from, Stop::Word);
    if at == from {
        return Ok(r);
    }
    let end = program_words::scan(line, at, Stop::Blank);
    if !program_words::same(&line[at..end], b"packed") {
        return Ok(r);
    }
    let next = program_words::scan(line, end, Stop::Word);
    let mut step = r.step;
    if next == line.len() {
        step[7] = 1;
        return Ok(Reading { at: next, step });
    }
    take_field(line, Reading { at: next, step }, Field::Mark, 7)
}

fn end_line(line: &[u8], r: Reading) -> Result<Option<[u8; 32]>, Reason>
    requires { r.at ≤ length line.now }
    ensures { ReadAs (end_line (state_of line.now (Ok r))) result }
{
    if program_words::scan(line, r.at, Stop::Word) != line.len() {
        return Err(Reason::TooMuch);
    }
    Ok(Some(r.step))
}

// An operation's line after its name, which ends at a place. Apart, so that what it works with is not set up for a line that says nothing.
#[inline(never)]
fn named(line: &[u8], operation: usize, at: usize) -> Result<Option<[u8; 32]>, Reason>
    requires { at ≤ length line.now }
    ensures { ReadAs (named operation (drop at line.now)) result }
{
    if operation >= 276 {
        return Err(Reason::Name);
    }
    let mut step = [0u8; 32];
    step[0] = (operation % 256) as u8;
    step[1] = (operation / 256) as u8;
    let start = Reading { at, step };
    let fields = take_form(line, start, program_forms::of(operation as u16))?;
    end_line(line, take_packed(line, fields)?)
}

// A line without its comment.
fn stated(line: &[u8]) -> Result<Option<[u8; 32]>, Reason>
    ensures { ReadAs (stated (skip line.now)) result }
{
    let at = program_words::scan(line, 0, Stop::Word);
    if at == line.len() {
        return Ok(None);
    }
    let end = program_words::scan(line, at, Stop::Blank);
    // `step` and 32 bytes: any step whatever
    if program_words::same(&line[at..end], b"step") {
        let start = Reading {
            at: end,
            step: [0u8; 32],
        };
        return end_line(line, take_fields(line, start, Field::Byte, 32, 0)?);
    }
    named(line, program_names::number(&line[at..end]), end)
}

// What a line stands for: a step, nothing, or no step for a reason.
pub fn read_line(line: &[u8]) -> Result<Option<[u8; 32]>, Reason>
    ensures { ReadAs (the-line line.now) result }
{
    let end = program_words::statement(line);
    stated(&line[..end])
}
