// Parts of a chunk of the input.
ghost use Rattle.std.specs.Prelude.{◌+◌, ◌<◌, ◌≤◌, length};

// The 128 bytes of a request, from `at` on.
pub fn request_at(input: &[u8], at: usize) -> [u8; 128]
    requires { at + 128 ≤ length input.now }
{
    let mut out = [0u8; 128];
    for i in 0..128 {
        out[i] = input[at + i];
    }
    out
}

// The 80 bytes of an answer, from `at` on.
pub fn answer_at(input: &[u8], at: usize) -> [u8; 80]
    requires { at + 80 ≤ length input.now }
{
    let mut out = [0u8; 80];
    for i in 0..80 {
        out[i] = input[at + i];
    }
    out
}

// Where the next record starts, or the end.
pub fn after(at: usize, step: usize, end: usize) -> usize
    requires at_lt_end { at < end }
    requires step_nonzero { 0 < step }
    ensures lower_bound { at < result }
    ensures upper_bound { result ≤ end }
{
    if end - at > step { at + step } else { end }
}
