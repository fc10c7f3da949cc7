// The program `record` (document 02, order 8): reads a step list from standard input, runs it from zero registers and scalar i32 0, and writes its recording to
// standard output. Where there is none it writes a line to standard error that says why.
#![tactic(auto)]

use program_system::{complain, has_argument, tell_status};
use recording::recorder::record;

// The longest recording is 37 blocks.
fn write_recording(rt: &HostRuntime, list: &[u8]) {
    let mut out = [0u8; 18944];
    let recorded = record(list, &mut out);
    if let Ok(length) = recorded {
        if let Err(error) = rt.write_all(&out[..length]) {
            complain(rt, "record: standard output", error);
            return;
        }
        tell_status(rt, true);
        return;
    }
    let mut said = [0u8; 32];
    let n = program_recordings::record_said(recorded, &mut said);
    let _ = rt.stderr().write_all(&said[..n]);
    tell_status(rt, false);
}

fn main(rt: HostRuntime) {
    if has_argument(&rt, 1) {
        let _ = eprintln!(rt;
            "record: takes no arguments, it reads a step list from standard input: ./record < LIST"
        );
        return;
    }
    // "list length not a multiple of 32, or above 8,192": one byte above decides, so no more than that is read.
    let mut list = [0u8; 8193];
    let reading = program_input::read_to(&mut rt.stdin(), &mut list);
    if let Some(error) = reading.failed {
        complain(&rt, "record: standard input", error);
        return;
    }
    let n = reading.bytes;
    write_recording(&rt, &list[..n]);
}
