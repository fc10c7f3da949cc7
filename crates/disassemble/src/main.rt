// The program `disassemble`: reads a step list from standard input and writes its text to standard output; where the list is refused, a line to standard error.
#![tactic(auto)]

use program_system::{complain, has_argument, tell_status};

fn main(rt: HostRuntime) {
    if has_argument(&rt, 1) {
        let _ = eprintln!(rt;
            "disassemble: takes no arguments, it reads a step list from standard input: ./disassemble < LIST > TEXT"
        );
        return;
    }
    // "list length not a multiple of 32, or above 8,192": one byte above decides, so no more than that is read.
    let mut list = [0u8; 8193];
    let reading = program_input::read_to(&mut rt.stdin(), &mut list);
    if let Some(error) = reading.failed {
        complain(&rt, "disassemble: standard input", error);
        return;
    }
    let n = reading.bytes;
    let mut output = [0u8; 65536];
    let mut said = [0u8; 32];
    match program_disassemble::disassemble(&list[..n], &mut output, &mut said) {
        Ok(bytes) => {
            if let Err(error) = rt.write_all(&output[..bytes]) {
                complain(&rt, "disassemble: standard output", error);
                return;
            }
            tell_status(&rt, true);
        }
        Err(words) => {
            let _ = rt.stderr().write_all(&said[..words]);
            tell_status(&rt, false);
        }
    }
}
