// The program `lanes` (document 01): "reads a step list from standard input, starts from zero registers and scalar i32 0, and writes" what the run
// leaves: one from place 0 under limit 256 (document 02, order 12).
#![tactic(auto)]

ghost use Rattle.program_digits.specs.Put.{Filled};
ghost use Rattle.program_listing.specs.Listing.{lanes_text};

use calculator::run::run;
use calculator_state::State;
use program_listing::{put_listing, refused_by};
use program_system::{complain, has_argument, tell_status};

// All bytes that the program writes of a step list.
fn answer(list: &[u8], out: &mut [u8; 1024]) -> usize
    ensures { Filled out.old (lanes_text list.now) out.new result }
{
    let ending = run(State::zero(), list, 0, 256);
    let outcome = ending.outcome;
    let state = ending.state;
    put_listing(out, 0, state, ending.done, refused_by(outcome))
}

fn main(rt: HostRuntime) {
    if has_argument(&rt, 1) {
        let _ = eprintln!(rt;
            "lanes: takes no arguments, it reads a step list from standard input: ./lanes < LIST"
        );
        return;
    }
    // "list length not a multiple of 32, or above 8,192": one byte above decides, so no more than that is read.
    let mut list = [0u8; 8193];
    let reading = program_input::read_to(&mut rt.stdin(), &mut list);
    if let Some(error) = reading.failed {
        complain(&rt, "lanes: standard input", error);
        return;
    }
    let n = reading.bytes;
    let mut out = [0u8; 1024];
    let written = answer(&list[..n], &mut out);
    if let Err(error) = rt.write_all(&out[..written]) {
        complain(&rt, "lanes: standard output", error);
        return;
    }
    let good = program_status::is_good(&out[..written]);
    tell_status(&rt, good);
}
