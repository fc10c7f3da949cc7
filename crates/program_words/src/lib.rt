// A text cut into lines, and a line into words: where a stretch of characters ends, and where a comment begins.
#![tactic(auto)]

ghost use Rattle.std.specs.Prelude.{◌+◌, ◌≤◌, ◌≡◌, length, drop};
ghost use Rattle.program_words.specs.Cut.{before, comment, statement, newline, pieces, same};
ghost use Rattle.program_words.specs.Stops.{stops};

// What stops a scan: a line's end, a blank, or anything but a blank. An enum and no closure, so that a contract names what stops.
#[derive(Clone, Copy)]
pub enum Stop {
    Line,
    Blank,
    Word,
}

fn stops(what: Stop, c: u8) -> bool
    ensures { result ≡ stops what c }
{
    match what {
        Stop::Line => c == b'\n',
        Stop::Blank => matches!(c, b' ' | b'\t' | b'\r'),
        Stop::Word => !matches!(c, b' ' | b'\t' | b'\r'),
    }
}

// The first place from a place on at which a character stops; the text's end where none does. A loop: by `get` and `position` a search in the table of names took
// a fifth more instructions.
pub fn scan(text: &[u8], from: usize, what: Stop) -> usize
    ensures place { result ≡ from + length (before (stops what) (drop from text.now)) }
    ensures low { from ≤ result }
    ensures high { from ≤ length text.now → result ≤ length text.now }
{
    if from >= text.len() {
        return from;
    }
    let rest = &text[from..];
    for (i, c) in rest.iter().enumerate() {
        if stops(what, *c) {
            return from + i;
        }
    }
    text.len()
}

// Whether a comment begins here: `#` or `;;`.
fn opens(rest: &[u8]) -> bool
    ensures { result ≡ comment rest.now }
{
    matches!(rest, [b'#', ..] | [b';', b';', ..])
}

// How long a line is without its comment.
pub fn statement(line: &[u8]) -> usize
    ensures { result ≡ length (statement line.now) }
{
    for i in 0..line.len() {
        if opens(&line[i..]) {
            return i;
        }
    }
    line.len()
}

// How many lines a text has: one more than it has line's ends.
pub fn lines(text: &[u8]) -> usize
    ensures { result ≡ length (pieces newline text.now) }
{
    let mut lines = 1;
    for c in text {
        if *c == b'\n' {
            lines += 1;
        }
    }
    lines
}

// Whether two texts are the same.
pub fn same(a: &[u8], b: &[u8]) -> bool
    ensures { result ≡ same a.now b.now }
{
    a == b
}
