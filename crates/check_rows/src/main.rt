// Rows of halves beside the single operations and beside the Rust's answers (document 02, order 6). Reads records of 1,924 bytes from standard input: 0 the
// operation (0 add, 1 exclusive-or, 2 popcnt), 1 and 2 how many halves the first and the second row have, at most 80, 3 the refusal that is expected, then
// three rows of 80 halves, each half low byte first: the first row, the second row, the first row afterwards. Halves past a row's end are zero. Writes how many
// records there were, how many vectors were compared with the single operation's, and how many records differ: in the refusal, in a half that is left, or in a
// vector. A record that is cut short differs.
#![tactic(auto)]

ghost use Rattle.std.specs.Prelude.{◌≤◌};

use memory_access::{Effective, fetch};
use simd::V128;
use standard_refusal::{Refusal, code};
use std::io;

const RECORD: usize = 1924;

// Where the rows of a record begin.
const FIRST: u64 = 4;

const SECOND: u64 = 644;

const EXPECTED: u64 = 1284;

const ADD: u8 = 0;

const XOR: u8 = 1;

fn half(record: &[u8; 1924], from: u64, i: u64) -> u64
    requires { i ≤ 80 }
{
    fetch(record, Effective::Sum(from, 8 * i)).unwrap_or(0)
}

fn row(record: &[u8; 1924], from: u64) -> [u64; 80] {
    let mut out = [0u64; 80];
    for i in 0..80 {
        out[i] = half(record, from, i as u64);
    }
    out
}

fn at_most_80(n: u8) -> usize
    ensures { result ≤ 80 }
{
    if n < 80 { n as usize } else { 80 }
}

// By the record's byte.
fn over_rows(op: u8, first: &mut [u64], second: &[u64]) -> Result<(), Refusal> {
    match op {
        ADD => row_halves::i8x16_add(first, second),
        XOR => row_halves::v128_xor(first, second),
        _ => row_halves::i8x16_popcnt(first),
    }
}

fn single(op: u8, a: V128, b: V128) -> V128 {
    match op {
        ADD => a.i8x16_add(b),
        XOR => a.v128_xor(b),
        _ => a.i8x16_popcnt(),
    }
}

fn same(a: &[u64; 80], b: &[u64; 80]) -> bool {
    for i in 0..80 {
        if a[i] != b[i] {
            return false;
        }
    }
    true
}

// The row that the single operation makes of the first n vectors, one after the other.
fn singly(op: u8, n: usize, first: [u64; 80], second: [u64; 80]) -> [u64; 80] {
    let mut out = first;
    for i in 0..40 {
        if i < n {
            let lo = 2 * i;
            let hi = lo + 1;
            let a = V128 {
                lo: first[lo],
                hi: first[hi],
            };
            let b = V128 {
                lo: second[lo],
                hi: second[hi],
            };
            let r = single(op, a, b);
            out[lo] = r.lo;
            out[hi] = r.hi;
        }
    }
    out
}

fn vectors(record: &[u8; 1924]) -> usize {
    if record[3] == 0 {
        at_most_80(record[1]) / 2
    } else {
        0
    }
}

fn differs(record: &[u8; 1924]) -> bool {
    let op = record[0];
    let n = at_most_80(record[1]);
    let m = at_most_80(record[2]);
    let was = row(record, FIRST);
    let second = row(record, SECOND);
    let mut first = was;
    let refused = code(over_rows(op, &mut first[..n], &second[..m]));
    refused != record[3]
        || !same(&first, &row(record, EXPECTED))
        || !same(&first, &singly(op, vectors(record), was, second))
}

#[derive(Clone, Copy)]
struct Counts {
    records: u64,
    vectors: u64,
    differ: u64,
}

fn counted(counts: Counts, vectors: usize, differs: bool) -> Counts {
    Counts {
        records: std::num::wrapping_add_u64(counts.records, 1),
        vectors: std::num::wrapping_add_u64(counts.vectors, vectors as u64),
        differ: std::num::wrapping_add_u64(counts.differ, differs as u64),
    }
}

fn line(rt: &HostRuntime, name: &str, n: u64) -> io::Result<()> {
    println!(rt; "{name} {n}")
}

// The turns count down, so that the program ends whatever is handed in.
fn main(rt: HostRuntime) -> io::Result<()> {
    let mut counts = Counts {
        records: 0,
        vectors: 0,
        differ: 0,
    };
    let mut turns = u64::MAX;
    while turns > 0 {
        let mut record = [0u8; 1924];
        let n = program_input::read_to(&mut rt.stdin(), &mut record).bytes;
        if n == 0 {
            break;
        }
        counts = counted(counts, vectors(&record), n < RECORD || differs(&record));
        turns -= 1;
    }
    line(&rt, "records", counts.records)?;
    line(&rt, "vectors", counts.vectors)?;
    line(&rt, "differ", counts.differ)
}
