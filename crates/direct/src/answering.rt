// With no argument: requests from standard input, an answer to each on standard output. A chunk of 512 requests is read and answered at a time.
ghost use Rattle.std.specs.Prelude.{◌≡◌, ◌+◌, ◌<◌, ◌≤◌, length};

use crate::layout::*;
use crate::{dispatch, stream};
use std::io;

// Where the last answer to a chunk starts: 512 answers have 40,960 bytes.
const LAST: usize = 40880;

// The answer to the request that starts at `at`, which may be cut short.
fn answered(input: &[u8], at: usize) -> [u8; 80]
    requires { at < length input.now }
{
    if input.len() - at < REQUEST {
        dispatch::cut_short()
    } else {
        let request = stream::request_at(input, at);
        dispatch::answer_to(&request)
    }
}

fn place(output: &mut [u8], at: usize, answer: &[u8; 80])
    requires { at + 80 ≤ length output.old }
{
    for i in 0..80 {
        output[at + i] = answer[i];
    }
}

// Answers the requests of a chunk, one after the other, and says how many bytes the answers have.
fn answer_all(input: &[u8], output: &mut [u8]) -> usize
    requires { length output.old ≡ 40960 }
    ensures { result ≤ 40960 }
{
    let mut at = 0;
    let mut used = 0;
    while at < input.len() {
        if used > LAST {
            return used;
        }
        let answer = answered(input, at);
        place(output, used, &answer);
        used += ANSWER;
        at = stream::after(at, REQUEST, input.len());
    }
    used
}

// Answers one chunk, and says whether to go on.
fn answer_some(rt: &HostRuntime) -> io::Result<bool> {
    let mut input = [0u8; 65536];
    let n = program_input::read_to(&mut rt.stdin(), &mut input).bytes;
    let mut output = [0u8; 40960];
    let used = answer_all(&input[..n], &mut output);
    rt.write_all(&output[..used])?;
    Ok(n == 65536)
}

// A proved loop has to end, and nothing says that the input does: the turns count down from a number that no run uses up.
pub fn answer_input(rt: &HostRuntime) -> io::Result<()> {
    let mut turns = u64::MAX;
    while turns > 0 && answer_some(rt)? {
        turns -= 1;
    }
    Ok(())
}
