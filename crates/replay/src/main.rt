// The program `replay` (document 02, order 8): reads a recording from standard input, and writes whether every record is what the calculator's definition gives
// for its step, or which is the first that is not, counted from 1, or why the file is no recording.
#![tactic(auto)]

ghost use Rattle.recording_rules.specs.Definition as records;
ghost use Rattle.program_digits.specs.Put.{Filled};
ghost use Rattle.program_recordings.specs.Lines.{replay};

use program_system::{complain, has_argument, tell_status};

// All bytes that the program writes of a file.
fn answer(file: &[u8], out: &mut [u8; 32]) -> usize
    ensures { Filled out.old (replay (records.replay file.now)) out.new result }
{
    program_recordings::replay(recording::replay::replay(file), out)
}

fn main(rt: HostRuntime) {
    if has_argument(&rt, 1) {
        let _ = eprintln!(rt;
            "replay: takes no arguments, it reads a recording from standard input: ./replay < RECORDING"
        );
        return;
    }
    // "above 37 blocks": one byte above decides, so no more than that is read.
    let mut file = [0u8; 18945];
    let reading = program_input::read_to(&mut rt.stdin(), &mut file);
    if let Some(error) = reading.failed {
        complain(&rt, "replay: standard input", error);
        return;
    }
    let n = reading.bytes;
    let mut out = [0u8; 32];
    let written = answer(&file[..n], &mut out);
    if let Err(error) = rt.write_all(&out[..written]) {
        complain(&rt, "replay: standard output", error);
        return;
    }
    let good = program_status::is_good(&out[..written]);
    tell_status(&rt, good);
}
