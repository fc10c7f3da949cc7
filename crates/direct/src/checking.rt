// With the argument `check`: records from standard input, each a request with the answer that is expected, and at the end a line for each set of
// records. A record: 0 the number of its set, 1..3 zero, 4..131 a request, 132..211 the expected answer, 212..291 a mask. A bit of the answer counts
// where the mask's bit is one. A record that is cut short differs.
ghost use Rattle.std.specs.Prelude.{◌<◌, length};

use crate::{dispatch, stream};
use std::io;

const RECORD: usize = 292;

const ASKED: usize = 4;

const EXPECTED: usize = 132;

const MASK: usize = 212;

// The bytes of 224 records.
const CHUNK: usize = 65408;

// Whether an answer differs from the expected one where the mask's bits are one.
fn differs(answer: &[u8; 80], expected: &[u8; 80], mask: &[u8; 80]) -> bool {
    for i in 0..80 {
        if answer[i] & mask[i] != expected[i] & mask[i] {
            return true;
        }
    }
    false
}

// Whether the record that starts at `at` differs.
fn differs_at(input: &[u8], at: usize) -> bool
    requires { at < length input.now }
{
    if input.len() - at < RECORD {
        return true;
    }
    let request = stream::request_at(input, at + ASKED);
    let answer = dispatch::answer_to(&request);
    let expected = stream::answer_at(input, at + EXPECTED);
    let mask = stream::answer_at(input, at + MASK);
    differs(&answer, &expected, &mask)
}

// One more for a set. The byte that numbers a set may be any.
fn count(counts: &mut [u64; 256], set: u8) {
    let i = set as usize;
    counts[i] = std::num::wrapping_add_u64(counts[i], 1);
}

fn check_all(input: &[u8], rows: &mut [u64; 256], differ: &mut [u64; 256]) {
    let mut at = 0;
    while at < input.len() {
        let set = input[at];
        count(rows, set);
        if differs_at(input, at) {
            count(differ, set);
        }
        at = stream::after(at, RECORD, input.len());
    }
}

// Checks one chunk, and says whether to go on.
fn check_some(rt: &HostRuntime, rows: &mut [u64; 256], differ: &mut [u64; 256]) -> bool {
    let mut input = [0u8; 65408];
    let n = program_input::read_to(&mut rt.stdin(), &mut input).bytes;
    check_all(&input[..n], rows, differ);
    n == CHUNK
}

fn print_set(rt: &HostRuntime, set: u64, rows: u64, differ: u64) -> io::Result<()> {
    println!(rt; "set {set} rows {rows} differ {differ}")
}

// A line for each set that occurred.
fn print_sets(rt: &HostRuntime, rows: &[u64; 256], differ: &[u64; 256]) -> io::Result<()> {
    for i in 0..256 {
        if rows[i] != 0 {
            print_set(rt, i as u64, rows[i], differ[i])?;
        }
    }
    Ok(())
}

// The turns count down as in `answer_input`.
pub fn check_input(rt: &HostRuntime) -> io::Result<()> {
    let mut rows = [0u64; 256];
    let mut differ = [0u64; 256];
    let mut turns = u64::MAX;
    while turns > 0 && check_some(rt, &mut rows, &mut differ) {
        turns -= 1;
    }
    print_sets(rt, &rows, &differ)
}
