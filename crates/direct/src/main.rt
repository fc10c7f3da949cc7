// Every operation called from a file. With no argument: reads requests of 128 bytes from standard input until the end, and writes an answer of 80
// bytes for each (layout.rt says where each field stands). With the argument `check`: records (checking.rt), and a line for each set.
#![tactic(auto)]

mod answer;
mod answering;
mod arithmetic;
mod bitwise;
mod checking;
mod compare;
mod convert;
mod dispatch;
mod float;
mod lanes;
mod layout;
mod memory;
mod packed;
mod rearrange;
mod reduce;
mod relaxed;
mod request;
mod shift;
mod splat;
mod stream;
mod widen;

use std::io;
use std::rt::Env;

// Whether the first argument is `check`.
fn is_check(env: &impl Env) -> bool {
    let mut word = [0u8; 5];
    let n = program_system::argument(env, 1, &mut word);
    n == 5
        && word[0] == b'c'
        && word[1] == b'h'
        && word[2] == b'e'
        && word[3] == b'c'
        && word[4] == b'k'
}

fn main(rt: HostRuntime) -> io::Result<()> {
    if is_check(&rt) {
        checking::check_input(&rt)
    } else {
        answering::answer_input(&rt)
    }
}
