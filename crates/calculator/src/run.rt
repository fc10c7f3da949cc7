// A run: steps of 32 bytes each, one after the other, from a place of the list on and no more of them than the limit, until one is refused.
ghost use Rattle.std.specs.Prelude.{◌≡◌, ◌+◌, ◌-◌, ◌*◌, ◌/◌, ◌<◌, ◌≤◌, length, drop};
ghost use Rattle.calculator_rules.specs.Definition;
ghost use Rattle.calculator_state.specs.State.{machine, held};
ghost use Rattle.calculator.specs.Run.{ending_of, stopped_with};

pub use calculator_limits::Outcome;
use calculator_numbering::take_up;
use calculator_scalar::Scalar;
use calculator_state::State;
use calculator_state::registers::{of_words, words};
use calculator_step::step;

// What a run leaves: the state, the steps done, and how it stopped.
#[derive(Clone, Copy)]
pub struct Ending {
    pub state: State,
    pub done: usize,
    pub outcome: Outcome,
}

// What a run leaves beside its words and their writers.
#[derive(Clone, Copy)]
pub struct Stopped {
    pub scalar: Scalar,
    pub done: usize,
    pub outcome: Outcome,
}

// The steps of a list of whole steps.
fn steps(
    w: &mut [u64; 32],
    writers: &mut [u16; 16],
    scalar: Scalar,
    list: &[u8],
    place: usize,
    limit: usize,
) -> Stopped
    requires list_len_bound { length list.now ≤ 8192 }
    requires place_in_bounds { place ≤ length list.now / 32 }
    ensures { stopped_with result w.new writers.new ≡ Definition.steps (length list.now / 32 - place) limit place (drop (32 * place) list.now) (held w.old writers.old scalar) }
{
    let n = list.len() / 32;
    let end = calculator_limits::stop(n, place, limit);
    let mut scalar = scalar;
    for at in place..end {
        let from = 32 * at;
        match step(w, writers, scalar, at as u8, &list[from..from + 32]) {
            Ok(left) => scalar = left.scalar,
            Err(refusal) => {
                return Stopped {
                    scalar,
                    done: at - place,
                    outcome: Outcome::Refused(refusal),
                };
            }
        }
    }
    Stopped {
        scalar,
        done: end - place,
        outcome: calculator_limits::stopped_at(n, end),
    }
}

// A run over the words of its registers, where they stand.
pub fn run_words(
    w: &mut [u64; 32],
    writers: &mut [u16; 16],
    scalar: Scalar,
    list: &[u8],
    place: usize,
    limit: usize,
) -> Stopped
    ensures { stopped_with result w.new writers.new ≡ Definition.run list.now place limit (held w.old writers.old scalar) }
{
    let judged = calculator_limits::judge(list.len(), place, limit);
    take_up(writers, judged, place);
    match judged {
        Ok(()) => steps(w, writers, scalar, list, place, limit),
        Err(refusal) => Stopped {
            scalar,
            done: 0,
            outcome: Outcome::Refused(refusal),
        },
    }
}

pub fn run(state: State, list: &[u8], place: usize, limit: usize) -> Ending
    ensures { ending_of result ≡ Definition.run list.now place limit (machine state) }
{
    let mut w = words(state.registers);
    let mut writers = state.writers;
    let stopped = run_words(&mut w, &mut writers, state.scalar, list, place, limit);
    Ending {
        state: State {
            registers: of_words(w),
            writers,
            scalar: stopped.scalar,
        },
        done: stopped.done,
        outcome: stopped.outcome,
    }
}
