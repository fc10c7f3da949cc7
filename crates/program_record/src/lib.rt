// A record of a field recording as text.
#![tactic(auto)]

ghost use Rattle.std.specs.Prelude.{◌≡◌, length};
ghost use Rattle.program_digits.specs.Put.{Wrote};
ghost use Rattle.program_record.specs.Record.{difference, head, record_text};

use program_digits::{put, put_number};
use program_outcome::put_left;

// What the definition gives, where it differs.
fn put_difference(out: &mut [u8], at: usize, r: &[u8], d: &[u8]) -> usize
    requires r_len { length r.now ≡ 64 }
    requires d_len { length d.now ≡ 64 }
    ensures { Wrote out.old at (difference r.now d.now) out.new result }
{
    if &r[32..] == &d[32..] {
        return at;
    }
    let next = put(out, at, b"  the definition gives\n");
    put_left(out, next, d)
}

fn put_head(out: &mut [u8], at: usize, number: usize, r: &[u8]) -> usize
    requires { length r.now ≡ 64 }
    ensures { Wrote out.old at (head number r.now) out.new result }
{
    let next = put_number(out, at, b"record ", number as u64);
    let next = put(out, next, b": ");
    let next = program_step::put_step(out, next, &r[..32]);
    put(out, next, b"\n")
}

// The record of a number, beside the one that the definition gives. Nothing where either is not 64 bytes.
pub fn put_record(out: &mut [u8], at: usize, number: usize, r: &[u8], d: &[u8]) -> usize
    ensures { Wrote out.old at (record_text number r.now d.now) out.new result }
{
    if r.len() != 64 {
        return at;
    }
    if d.len() != 64 {
        return at;
    }
    let next = put_head(out, at, number, r);
    let next = put_left(out, next, r);
    put_difference(out, next, r, d)
}
