// The program `mend` (document 02, order 10): reads a damaged recording from standard input and writes its blocks to standard output, each as it is or with one
// bit put back, up to the first that can not be mended. On standard error a line for each bit put back, and one for the block at which it stopped.
#![tactic(auto)]

use program_system::{complain, has_argument, tell_status};
use recording_mending::mend;

// The longest recording is 37 blocks.
fn write_mended(rt: &HostRuntime, file: &[u8]) {
    let mut out = [0u8; 18944];
    let mended = mend(file, &mut out);
    if let Ok(mending) = mended {
        let n = 512 * mending.written;
        if let Err(error) = rt.write_all(&out[..n]) {
            complain(rt, "mend: standard output", error);
            return;
        }
    }
    let mut said = [0u8; 2048];
    let n = program_recordings::mend_said(mended, &mut said);
    let _ = rt.stderr().write_all(&said[..n]);
    let good = mended.is_ok_and(|mending| !mending.stopped);
    tell_status(rt, good);
}

fn main(rt: HostRuntime) {
    if has_argument(&rt, 1) {
        let _ = eprintln!(rt;
            "mend: takes no arguments, it reads a recording from standard input: ./mend < RECORDING > FILE"
        );
        return;
    }
    // "above 37 blocks": one byte above decides, so no more than that is read.
    let mut file = [0u8; 18945];
    let reading = program_input::read_to(&mut rt.stdin(), &mut file);
    if let Some(error) = reading.failed {
        complain(&rt, "mend: standard input", error);
        return;
    }
    let n = reading.bytes;
    write_mended(&rt, &file[..n]);
}
