// The program `marker` (document 02, order 5): finds the marker of its first argument, within the tolerance of its second and with frames of as many bits as
// its third says, in the bytes of standard input.
#![tactic(auto)]

ghost use Rattle.std.specs.Prelude.{ℕ, ◌≡◌, true, List, []};
ghost use Rattle.finder_windows.specs.Definition.{find};
ghost use Rattle.program_digits.specs.Put.{Filled};
ghost use Rattle.program_reports.specs.Lines.{marker};

use program_system::{argument, complain, has_argument, tell_status};
use std::rt::Env;

#[derive(Clone, Copy)]
struct Task {
    marker: u32,
    tolerance: u32,
    length: u32,
}

// All bytes that the program writes of a buffer.
fn answer(buffer: &[u8], task: Task, out: &mut [u8; 128]) -> usize
    ensures { Filled out.old (marker (find buffer.now task.marker task.tolerance task.length)) out.new result }
{
    program_reports::marker(
        finder::find(buffer, task.marker, task.tolerance, task.length),
        out,
    )
}

fn report(rt: &HostRuntime, buffer: &[u8], task: Task) {
    let mut out = [0u8; 128];
    let n = answer(buffer, task, &mut out);
    if let Err(error) = rt.write_all(&out[..n]) {
        complain(rt, "marker: standard output", error);
        return;
    }
    let good = program_status::is_good(&out[..n]);
    tell_status(rt, good);
}

// An argument of Linux has fewer than 131,072 bytes, so each comes whole, whatever zeros it begins with.
fn decimal_at(env: &impl Env, i: usize) -> Option<u32> {
    let mut text = [0u8; 131072];
    let n = argument(env, i, &mut text);
    program_arguments::decimal(&text[..n])
}

fn marker_at(env: &impl Env, i: usize) -> Option<u32> {
    let mut text = [0u8; 8];
    let n = argument(env, i, &mut text);
    program_arguments::eight_hex_digits(&text[..n])
}

fn read_arguments(env: &impl Env) -> Option<Task> {
    if !has_argument(env, 3) || has_argument(env, 4) {
        return None;
    }
    Some(Task {
        marker: marker_at(env, 1)?,
        tolerance: decimal_at(env, 2)?,
        length: decimal_at(env, 3)?,
    })
}

// Whether the arguments alone decide, so that nothing has to be read: what an empty buffer is answered, every buffer is.
fn is_decided(task: Task) -> bool
    ensures { result ≡ true → (bytes : List ℕ) → find bytes task.marker task.tolerance task.length ≡ find [] task.marker task.tolerance task.length }
{
    finder_windows::barred(task.tolerance, task.length).is_err()
}

fn main(rt: HostRuntime) {
    let Some(task) = read_arguments(&rt) else {
        let _ = eprintln!(rt;
            "marker: expected a marker of eight hex digits, a tolerance and a frame length in decimal, both below 4294967296"
        );
        return;
    };
    if is_decided(task) {
        report(&rt, b"", task);
        return;
    }
    // "buffer above 65,536 bytes": one byte above decides, so no more than that is read.
    let mut buffer = [0u8; 65537];
    let reading = program_input::read_to(&mut rt.stdin(), &mut buffer);
    if let Some(error) = reading.failed {
        complain(&rt, "marker: standard input", error);
        return;
    }
    let n = reading.bytes;
    report(&rt, &buffer[..n], task);
}
