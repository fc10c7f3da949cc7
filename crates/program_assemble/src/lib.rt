// A whole text read: the step list that it stands for, or its first line that stands for no step, and what the program `assemble` writes.
#![tactic(auto)]

ghost use Rattle.std.specs.Prelude.{◌≤◌, ◌≡◌};
ghost use Rattle.program_answer.specs.Tells.{Tells};
ghost use Rattle.program_digits.specs.Put.{Wrote};
ghost use Rattle.program_line.specs.Line.{line as the-line};
ghost use Rattle.program_line.specs.Reads.{number_of};
ghost use Rattle.program_assemble.specs.Meaning.{TakesLine, Assembles, taken_of, read_of};
ghost use Rattle.program_assemble.specs.Text.{assembled, why, complaint, told};

use program_line::Reason;
use program_words::Stop;

// The first wrong line of a text, counted from 1, why it is wrong, and how many steps stand before it.
#[derive(Clone, Copy)]
pub struct Fault {
    pub steps: usize,
    pub line: usize,
    pub reason: Reason,
}

// After a line: how many steps there are, and the place after them.
#[derive(Clone, Copy)]
pub struct Taken {
    pub steps: usize,
    pub at: usize,
}

// A text gives no more steps.
const MOST_STEPS: usize = 256;

// Puts the step of a line, if it has one, after those before it.
fn take_line(line: &[u8], out: &mut [u8], steps: usize, at: usize) -> Result<Taken, Reason>
    requires { steps ≤ 256 }
    ensures { TakesLine (the-line line.now) steps at out.old out.new (taken_of steps at result) }
{
    let Some(step) = program_line::read_line(line)? else {
        return Ok(Taken { steps, at });
    };
    if steps == MOST_STEPS {
        return Err(Reason::Steps);
    }
    let at = program_digits::put(out, at, &step);
    Ok(Taken {
        steps: steps + 1,
        at,
    })
}

// Puts the steps of a text into a lent slice, as far as there is room, up to the first wrong line; and answers how many there are.
pub fn read_text(text: &[u8], out: &mut [u8]) -> Result<usize, Fault>
    ensures { Assembles (assembled text.now) out.old out.new (read_of result) }
{
    let mut from = 0;
    let mut at = 0;
    let mut steps = 0;
    let mut line = 1;
    loop {
        let end = program_words::scan(text, from, Stop::Line);
        let taken = match take_line(&text[from..end], out, steps, at) {
            Ok(taken) => taken,
            Err(reason) => {
                return Err(Fault {
                    steps,
                    line,
                    reason,
                });
            }
        };
        if end == text.len() {
            return Ok(taken.steps);
        }
        steps = taken.steps;
        at = taken.at;
        from = end + 1;
        line += 1;
    }
}

// The table of specs/Text.antt: a line for each reason, none for 0.
const REASONS: [u8; 175] = *b"
no such name
register expected, r0 to r15
lane expected, 0 to 255
byte expected, two hex digits
mark expected, 1 to 255
too much on the line
above 256 steps
above 65536 bytes";

fn put_reason(out: &mut [u8], at: usize, reason: Reason) -> usize
    ensures { Wrote out.old at (why (number_of reason)) out.new result }
{
    program_table::put_line(out, at, &REASONS, u8::from(reason) as usize)
}

// The line that says which line is wrong, and why.
fn put_complaint(out: &mut [u8], line: usize, reason: Reason) -> usize
    ensures { Wrote out.old 0 (complaint line (number_of reason)) out.new result }
{
    let numbered = program_digits::put_number(out, 0, b"assemble: line ", line as u64);
    let colon = program_digits::put(out, numbered, b": ");
    let reasoned = put_reason(out, colon, reason);
    program_digits::put(out, reasoned, b"\n")
}

// What the program `assemble` writes for a text on standard input: so many bytes of a list on standard output, or a line of so many on standard error.
pub fn assemble(text: &[u8], output: &mut [u8; 8192], said: &mut [u8; 128]) -> Result<usize, usize>
    ensures { Tells (told text.now) output.old said.old output.new said.new result }
{
    if text.len() > 65536 {
        let line = program_words::lines(&text[..65536]);
        return Err(put_complaint(said, line, Reason::Bytes));
    }
    let mut list = [0u8; 8192];
    match read_text(text, &mut list) {
        Ok(steps) => Ok(program_digits::put(output, 0, &list[..32 * steps])),
        Err(fault) => Err(put_complaint(said, fault.line, fault.reason)),
    }
}
