// All that the program `lease` writes: it takes a list up at a place under a limit, and again after each pause at the place reported, until it ends or is
// refused.
ghost use Rattle.std.specs.Prelude.{◌≡◌};
ghost use Rattle.calculator_rules.specs.Definition.{start};
ghost use Rattle.calculator_limits.specs.Outcome.{outcome_of};
ghost use Rattle.program_digits.specs.Put.{Wrote, Filled};
ghost use Rattle.lease.specs.Lease.{stop, call_line, calls, lease_text};

use calculator::run::{Outcome, run};
use calculator_state::State;
use program_digits::{put, put_number};
use program_listing::put_listing;

fn put_stop(out: &mut [u8], at: usize, outcome: Outcome) -> usize
    ensures { Wrote out.old at (stop (outcome_of outcome)) out.new result }
{
    match outcome {
        Outcome::Ended => put(out, at, b" ended"),
        Outcome::Paused(place) => put_number(out, at, b" paused ", place as u64),
        Outcome::Refused(refusal) => put_number(out, at, b" refused ", u8::from(refusal) as u64),
    }
}

fn put_call(out: &mut [u8], at: usize, done: usize, outcome: Outcome) -> usize
    ensures { Wrote out.old at (call_line done (outcome_of outcome)) out.new result }
{
    let next = put_number(out, at, b"steps ", done as u64);
    let next = put_stop(out, next, outcome);
    put(out, next, b"\n")
}

// The calls, a line for each, and the listing. A limit of 0 would never come to an end, so it is one call.
fn put_calls(out: &mut [u8], list: &[u8], place: u32, limit: u32) -> usize
    ensures { Wrote out.old 0 (calls 257 list.now place limit 0 start) out.new result }
{
    let mut state = State::zero();
    let mut at = place as usize;
    let mut before = 0;
    let mut next = 0;
    loop {
        let ending = run(state, list, at, limit as usize);
        state = ending.state;
        let done = before + ending.done;
        let outcome = ending.outcome;
        next = put_call(out, next, ending.done, outcome);
        match outcome {
            Outcome::Ended => return put_listing(out, next, state, done, 0),
            Outcome::Refused(refusal) => {
                return put_listing(out, next, state, done, u8::from(refusal));
            }
            Outcome::Paused(place) => {
                if limit == 0 {
                    return put_listing(out, next, state, done, 0);
                }
                at = place;
                before = done;
            }
        }
    }
}

// All bytes that `lease` writes of a step list, a place and a limit.
pub fn lease(list: &[u8], place: u32, limit: u32, out: &mut [u8; 16384]) -> usize
    ensures { Filled out.old (lease_text list.now place limit) out.new result }
{
    put_calls(out, list, place, limit)
}
