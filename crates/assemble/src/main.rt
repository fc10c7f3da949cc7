// The program `assemble`: reads the text of a step list from standard input and writes the list to standard output, or to standard error which line stands for
// no step, and why.
#![tactic(auto)]

use program_system::{complain, has_argument, tell_status};

// What standard input holds, assembled.
fn assemble_input(rt: &HostRuntime) {
    // One byte above 65,536 decides, so no more than that is read.
    let mut text = [0u8; 65537];
    let reading = program_input::read_to(&mut rt.stdin(), &mut text);
    if let Some(error) = reading.failed {
        complain(rt, "assemble: standard input", error);
        return;
    }
    let n = reading.bytes;
    let mut output = [0u8; 8192];
    let mut said = [0u8; 128];
    match program_assemble::assemble(&text[..n], &mut output, &mut said) {
        Ok(bytes) => {
            if let Err(error) = rt.write_all(&output[..bytes]) {
                complain(rt, "assemble: standard output", error);
                return;
            }
            tell_status(rt, true);
        }
        Err(words) => {
            let _ = rt.stderr().write_all(&said[..words]);
            tell_status(rt, false);
        }
    }
}

fn main(rt: HostRuntime) {
    if has_argument(&rt, 1) {
        let _ = eprintln!(rt;
            "assemble: takes no arguments, it reads a text from standard input: ./assemble < TEXT > LIST"
        );
        return;
    }
    assemble_input(&rt);
}
