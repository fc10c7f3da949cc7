// What a run is asked for, before any step: judging the limit, the list's length and the place to take up from, in that order; where the run stops, and how.
#![tactic(auto)]

ghost use Rattle.std.specs.Prelude.{◌≡◌, ◌+◌, ◌/◌, min, leb, ltb, cond};
ghost use Rattle.standard_refusal.specs.Number.{code_of};
ghost use Rattle.calculator_rules.specs.Definition.{unless, whole_steps, list_refusal, ended, paused};
ghost use Rattle.calculator_limits.specs.Outcome.{outcome_of};

use standard_refusal::Refusal;

// How a run stops (document 02, order 12).
#[derive(Clone, Copy, PartialEq, Eq, Debug)]
pub enum Outcome {
    // "a list with no step left has ended"
    Ended,
    // "Stopped at the limit with steps left": where, "counted from the list's start"
    Paused(usize),
    // by the refusal of a step or of the list
    Refused(Refusal),
}

// "limit above 256, tested before 1" (document 02, order 12)
fn limited(limit: usize) -> Result<(), Refusal>
    ensures { code_of result ≡ unless (leb limit 256) 17 0 }
{
    if limit <= 256 {
        Ok(())
    } else {
        Err(Refusal::Limit)
    }
}

// "list length not a multiple of 32, or above 8,192"
fn whole(bytes: usize) -> Result<(), Refusal>
    ensures { code_of result ≡ unless (whole_steps bytes) 1 0 }
{
    if bytes % 32 == 0 && bytes <= 8192 {
        Ok(())
    } else {
        Err(Refusal::List)
    }
}

// "a place to take up from that is above the list's number of steps, tested after 1" (order 12)
fn inside(place: usize, bytes: usize) -> Result<(), Refusal>
    ensures { code_of result ≡ unless (leb place (bytes / 32)) 19 0 }
{
    if place <= bytes / 32 {
        Ok(())
    } else {
        Err(Refusal::Place)
    }
}

// The first refusal that a list of so many bytes meets.
pub fn judge(bytes: usize, place: usize, limit: usize) -> Result<(), Refusal>
    ensures { code_of result ≡ list_refusal bytes place limit }
{
    limited(limit)?;
    whole(bytes)?;
    inside(place, bytes)
}

// Where a run of a list of n steps stops if no step is refused: at the limit or at the list's end, whichever is first.
pub fn stop(n: usize, place: usize, limit: usize) -> usize
    ensures { result ≡ min n (place + limit) }
{
    n.min(place.saturating_add(limit))
}

// How a run of a list of n steps has stopped that no step ended before a place.
pub fn stopped_at(n: usize, at: usize) -> Outcome
    ensures { outcome_of result ≡ cond (ltb at n) (paused at) ended }
{
    if at < n {
        Outcome::Paused(at)
    } else {
        Outcome::Ended
    }
}
