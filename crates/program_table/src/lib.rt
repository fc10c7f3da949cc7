// A table that is a text, a line for each entry: which line a word is, and the line of a number.
#![tactic(auto)]

ghost use Rattle.std.specs.Prelude.{◌≡◌, [], get_or};
ghost use Rattle.program_digits.specs.Put.{Wrote};
ghost use Rattle.program_words.specs.Cut.{newline, pieces};
ghost use Rattle.program_table.specs.Place.{place};
ghost use Rattle.program_table.specs.Spans.{Spans};

use program_words::Stop;

// A part of a text.
#[derive(Clone, Copy)]
pub struct Span {
    pub start: usize,
    pub end: usize,
}

// Which line of a text this one is, the first being 0; the number of lines where none is. By hand: `split(..).position(..)` was tried, and what its closure says of a
// character by reference did not close in the proof.
pub fn find(lines: &[u8], line: &[u8]) -> usize
    ensures { result ≡ place (pieces newline lines.now) line.now }
{
    let mut at = 0;
    let mut n = 0;
    loop {
        let end = program_words::scan(lines, at, Stop::Line);
        if &lines[at..end] == line {
            return n;
        }
        n += 1;
        if end == lines.len() {
            return n;
        }
        at = end + 1;
    }
}

// The line of a number; nothing where the text has fewer lines. By hand: `split(..).nth(n)` was tried, and its proof did not close.
fn nth(lines: &[u8], n: usize) -> Span
    ensures { Spans lines.now result (get_or (pieces newline lines.now) n []) }
{
    let mut at = 0;
    let mut k = n;
    while k > 0 {
        let end = program_words::scan(lines, at, Stop::Line);
        if end == lines.len() {
            return Span { start: end, end };
        }
        at = end + 1;
        k -= 1;
    }
    let end = program_words::scan(lines, at, Stop::Line);
    Span { start: at, end }
}

// Puts the line of a number into a lent slice from a place on, and answers the place after it.
pub fn put_line(out: &mut [u8], at: usize, lines: &[u8], n: usize) -> usize
    ensures { Wrote out.old at (get_or (pieces newline lines.now) n []) out.new result }
{
    let s = nth(lines, n);
    let start = s.start;
    let end = s.end;
    program_digits::put(out, at, &lines[start..end])
}
