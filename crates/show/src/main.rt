// The program `show`: reads a recording (document 02, order 8) from standard input and writes it as text: each record's number, its step, what the step left,
// and where that is not what the calculator's definition gives, what it gives; then the line that `replay` writes.
#![tactic(auto)]

use program_system::{complain, has_argument, tell_status};

fn main(rt: HostRuntime) {
    if has_argument(&rt, 1) {
        let _ = eprintln!(rt;
            "show: takes no arguments, it reads a recording from standard input: ./show < RECORDING"
        );
        return;
    }
    // "above 37 blocks": one byte above decides, so no more than that is read.
    let mut file = [0u8; 18945];
    let reading = program_input::read_to(&mut rt.stdin(), &mut file);
    if let Some(error) = reading.failed {
        complain(&rt, "show: standard input", error);
        return;
    }
    let n = reading.bytes;
    let mut out = [0u8; 131072];
    let written = program_show::show(&file[..n], &mut out);
    if let Err(error) = rt.write_all(&out[..written]) {
        complain(&rt, "show: standard output", error);
        return;
    }
    let good = program_status::is_good(&out[..written]);
    tell_status(&rt, good);
}
