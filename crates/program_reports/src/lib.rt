// What `marker` and `fold` write: each function puts all lines of an answer at the start of a lent buffer, and says how many bytes they are.
#![tactic(auto)]

ghost use Rattle.std.specs.Prelude.{◌≡◌};
ghost use Rattle.finder_windows.specs.Answer as windows;
ghost use Rattle.program_digits.specs.Put.{Wrote, Filled};
ghost use Rattle.program_reports.specs.Lines.{marker, indices_line, fold};

use finder_windows::Found;
use program_digits::{put, put_count, put_hex_bytes, put_number};
use standard_refusal::Refusal;

pub fn marker(answer: Result<Found, Refusal>, out: &mut [u8; 128]) -> usize
    ensures { Filled out.old (marker (windows.answer_of answer)) out.new result }
{
    match answer {
        Ok(found) => {
            let next = put_count(out, 0, b"position ", found.position as u64);
            let next = put_number(out, next, b"distances ", found.first as u64);
            let next = put_count(out, next, b" ", found.second as u64);
            put_count(out, next, b"refused ", 0)
        }
        Err(refusal) => put_count(out, 0, b"refused ", u8::from(refusal) as u64),
    }
}

// The sixteen indices of a chain's one shuffle, where there is one.
fn put_indices(out: &mut [u8], refused: u8, indices: [u8; 16]) -> usize
    ensures { Wrote out.old 0 (indices_line refused indices) out.new result }
{
    if refused != 0 {
        return 0;
    }
    let next = put(out, 0, b"indices ");
    let next = put_hex_bytes(out, next, &indices);
    put(out, next, b"\n")
}

pub fn fold(refused: u8, indices: [u8; 16], out: &mut [u8; 128]) -> usize
    ensures { Filled out.old (fold refused indices) out.new result }
{
    let next = put_indices(out, refused, indices);
    put_count(out, next, b"refused ", refused as u64)
}
