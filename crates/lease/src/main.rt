// The program `lease` (document 02, order 12): reads a step list from standard input, starts from zero registers and scalar i32 0 as `lanes` does, takes the
// list up at a place under a limit, and again after each pause at the place reported, until it ends or is refused. A line for each call; then the listing that
// `lanes` writes, with the counts added up.
#![tactic(auto)]

mod calls;

use calls::lease;
use program_system::{argument, complain, has_argument, tell_status};
use std::rt::Env;

#[derive(Clone, Copy)]
struct Task {
    place: u32,
    limit: u32,
}

// An argument of Linux has fewer than 131,072 bytes, so each comes whole, whatever zeros it begins with.
fn decimal_at(env: &impl Env, i: usize) -> Option<u32> {
    let mut text = [0u8; 131072];
    let n = argument(env, i, &mut text);
    program_arguments::decimal(&text[..n])
}

fn read_arguments(env: &impl Env) -> Option<Task> {
    if !has_argument(env, 2) || has_argument(env, 3) {
        return None;
    }
    Some(Task {
        place: decimal_at(env, 1)?,
        limit: decimal_at(env, 2)?,
    })
}

fn main(rt: HostRuntime) {
    let Some(task) = read_arguments(&rt) else {
        let _ = eprintln!(rt;
            "lease: expected a place and a limit in decimal, both below 4294967296, and a step list on standard input: ./lease PLACE LIMIT < LIST"
        );
        return;
    };
    // "list length not a multiple of 32, or above 8,192": one byte above decides, so no more than that is read.
    let mut list = [0u8; 8193];
    let reading = program_input::read_to(&mut rt.stdin(), &mut list);
    if let Some(error) = reading.failed {
        complain(&rt, "lease: standard input", error);
        return;
    }
    let n = reading.bytes;
    let mut out = [0u8; 16384];
    let written = lease(&list[..n], task.place, task.limit, &mut out);
    if let Err(error) = rt.write_all(&out[..written]) {
        complain(&rt, "lease: standard output", error);
        return;
    }
    let good = program_status::is_good(&out[..written]);
    tell_status(&rt, good);
}
