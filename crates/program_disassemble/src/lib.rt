// A whole step list written as text, and what the program `disassemble` writes.
#![tactic(auto)]

ghost use Rattle.std.specs.Prelude.{◌-◌, ◌+◌, ◌/◌, ◌≤◌, ◌≡◌, length};
ghost use Rattle.program_answer.specs.Tells.{Tells};
ghost use Rattle.program_digits.specs.Put.{Wrote};
ghost use Rattle.program_disassemble.specs.Written.{numbered, lines, told};

const COLUMN: usize = 64;

// How many blanks there are before the column of numbers.
fn gap(n: usize) -> usize
    ensures { result ≡ 64 - n }
{
    COLUMN.saturating_sub(n)
}

// The line of a step with its number.
fn put_line(out: &mut [u8], at: usize, step: &[u8], k: usize) -> usize
    ensures { Wrote out.old at (numbered k step.now) out.new result }
{
    let mut line = [0u8; 256];
    let blanks = [b' '; 64];
    let n = program_step::put_step(&mut line, 0, step);
    let gap = gap(n);
    let column = program_digits::put(&mut line, n, &blanks[..gap]);
    let end = program_digits::put_count(&mut line, column, b" # ", k as u64);
    program_digits::put(out, at, &line[..end])
}

// The text of a list's steps, numbered from 1 on.
fn put_steps(out: &mut [u8], list: &[u8]) -> usize
    ensures { Wrote out.old 0 (lines 1 (length list.now / 32) list.now) out.new result }
{
    let mut next = 0;
    for i in 0..list.len() / 32 {
        let start = 32 * i;
        let end = start + 32;
        next = put_line(out, next, &list[start..end], i + 1);
    }
    next
}

// What the program `disassemble` writes for a list on standard input: so many bytes of its text on standard output, or a line of so many on
// standard error.
pub fn disassemble(
    list: &[u8],
    output: &mut [u8; 65536],
    said: &mut [u8; 32],
) -> Result<usize, usize>
    ensures { Tells (told list.now) output.old said.old output.new said.new result }
{
    if let Err(refusal) = calculator_limits::judge(list.len(), 0, 256) {
        let number = u8::from(refusal) as u64;
        return Err(program_digits::put_count(said, 0, b"refused ", number));
    }
    Ok(put_steps(output, list))
}
