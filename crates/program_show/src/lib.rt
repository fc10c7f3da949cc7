// All that the program `show` writes of a file.
#![tactic(auto)]

ghost use Rattle.std.specs.Prelude.{◌+◌, ◌*◌, ◌^◌, ◌≤◌, ◌≡◌, ◌++◌, length};
ghost use Rattle.calculator_rules.specs.Definition.{start};
ghost use Rattle.recording_fields.specs.Definition.{trace};
ghost use Rattle.recording_layout.specs.Definition.{blocks, judged};
ghost use Rattle.program_digits.specs.Put.{Wrote, Filled};
ghost use Rattle.program_show.specs.Show.{show_from, show_judged, show_text};

use calculator_scalar::Scalar;
use program_record::put_record;
use program_recordings::put_answer;
use recording::account::account;
use recording::replay::replay;
use recording_layout_judge::judge;

// The record of a step and of what it left.
fn record_of(s: &[u8], lo: u64, hi: u64, refused: u8, kind: u8, bits: u64) -> [u8; 64]
    requires { length s.now ≡ 32 }
    ensures { result ≡ s.now ++ trace (lo + 2 ^ 64 * hi) refused kind bits }
{
    let mut r = [0u8; 64];
    recording_fields::put(&mut r, s, lo, hi, refused, kind, bits);
    r
}

// The first records of a file, seven to a block, beside those of the definition, from zero registers and i32 0.
fn put_records(out: &mut [u8], file: &[u8], n: usize) -> usize
    requires n_bound { n ≤ 256 }
    requires n_bound_2 { n ≤ 7 * blocks file.now }
    ensures { Wrote out.old 0 (show_from n 0 file.now start) out.new result }
{
    let mut w = [0u64; 32];
    let mut writers = [0u16; 16];
    let mut scalar = Scalar::I32(0);
    let mut at = 0;
    let mut next = 0;
    while at < n {
        let from = 512 * (at / 7);
        let to = from + 512;
        let b = &file[from..to];
        let start = 4 + 64 * (at % 7);
        let end = start + 64;
        let r = &b[start..end];
        let left = account(&mut w, &mut writers, scalar, at as u8, &r[..32]);
        let d = record_of(
            &r[..32],
            left.lo,
            left.hi,
            left.refused,
            left.kind,
            left.bits,
        );
        next = put_record(out, next, at + 1, r, &d);
        scalar = left.scalar;
        at += 1;
    }
    next
}

fn put_judged(out: &mut [u8], file: &[u8]) -> usize
    ensures { Wrote out.old 0 (show_judged (judged file.now) file.now) out.new result }
{
    match judge(file) {
        Ok(n) => put_records(out, file, n),
        Err(_) => 0,
    }
}

// All bytes that `show` writes of a file.
pub fn show(file: &[u8], out: &mut [u8; 131072]) -> usize
    ensures { Filled out.old (show_text file.now) out.new result }
{
    let next = put_judged(out, file);
    put_answer(out, next, replay(file))
}
