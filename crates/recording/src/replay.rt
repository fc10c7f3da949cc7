// A replay: every record beside what the definition gives for its step.
ghost use Rattle.std.specs.Prelude.{◌≡◌, ◌*◌, ◌≤◌};
ghost use Rattle.calculator_rules.specs.Definition.{start};
ghost use Rattle.recording_layout.specs.Definition.{blocks};
ghost use Rattle.recording_compare.specs.Verdict.{verdict_of, answer_of};
ghost use Rattle.recording_rules.specs.Definition.{replay_from, replay};

use crate::account::account;
use calculator_scalar::Scalar;
use recording_compare::{Verdict, compare};
use recording_layout::record_at;
use recording_layout_judge::judge;
use standard_refusal::Refusal;

// The first records of a file, from zero registers and i32 0.
fn replay_records(file: &[u8], n: usize) -> Verdict
    requires n_bound { n ≤ 256 }
    requires n_bound_2 { n ≤ 7 * blocks file.now }
    ensures { verdict_of result ≡ replay_from n 0 file.now start }
{
    let mut w = [0u64; 32];
    let mut writers = [0u16; 16];
    let mut scalar = Scalar::I32(0);
    for at in 0..n {
        let Some(r) = record_at(file, at) else {
            unreachable!();
        };
        let left = account(&mut w, &mut writers, scalar, at as u8, &r[..32]);
        let verdict = compare(
            r,
            at as u8,
            left.lo,
            left.hi,
            left.refused,
            left.kind,
            left.bits,
        );
        let Verdict::Agrees = verdict else {
            return verdict;
        };
        scalar = left.scalar;
    }
    Verdict::Agrees
}

// The answer to any bytes.
pub fn replay(file: &[u8]) -> Result<Verdict, Refusal>
    ensures { answer_of result ≡ replay file.now }
{
    let n = judge(file)?;
    Ok(replay_records(file, n))
}
