// What a program asks of the system beside standard input and output: its arguments, a line on standard error, and its status.
#![tactic(auto)]

ghost use Rattle.io.specs.Counts.{IsPrefixLen};

use program_status::STATUS_FILENO;
use std::env::FillError;
use std::fs::OpenOptions;
use std::io;
use std::io::{ErrorKind, Write};
use std::rt::{Env, Files};

// Whether there is an argument at a place. The program's own name stands at place 0.
pub fn has_argument(env: &impl Env, place: usize) -> bool {
    !matches!(env.arg(place, &mut []), Err(FillError::NotPresent))
}

// Puts the argument at a place at the start of the buffer, and says how many bytes it has: 0 where there is none, or a longer one.
pub fn argument(env: &impl Env, place: usize, buffer: &mut [u8]) -> usize
    ensures { IsPrefixLen result buffer.new }
{
    match env.arg(place, buffer) {
        Ok(bytes) => bytes,
        Err(_) => 0,
    }
}

// What a shell says of a program that a closed pipe has ended.
const NOBODY_READS: &[u8] = b"141";

// Writes a line to standard error: what failed, and why in the system's words. Where whoever reads has gone, that is no fault of the program: it says nothing,
// and its status is that of a program that a closed pipe has ended.
pub fn complain(rt: &(impl Files + Eprint + Alloc), what: &str, error: io::Error) {
    if error.kind() == ErrorKind::BrokenPipe {
        let _ = put_status(rt, NOBODY_READS);
        return;
    }
    let _ = match error.to_string(rt.alloc()) {
        Ok(words) => rt.eprintln(format_args!("{what}: {}", without_number(words.as_str()))),
        Err(_) => rt.eprintln(what),
    };
}

// std puts the error's number behind the words, in parentheses.
fn without_number(words: &str) -> &str {
    match words.rsplit_once(" (os error ") {
        Some((before, _)) => before,
        None => words,
    }
}

// Says the status to the script that started the program. Where there is none, nobody hears it, and that changes nothing.
pub fn tell_status(rt: &(impl Files + Alloc), good: bool) {
    let _ = put_status(rt, &program_status::digit(good));
}

// A descriptor has no name in std, but the system has a file for each.
fn put_status(rt: &(impl Files + Alloc), said: &[u8]) -> io::Result<()> {
    let path = format!(in rt.alloc(); "/dev/fd/{STATUS_FILENO}")?;
    let mut file = OpenOptions::new().append(true).open(rt, path.as_str())?;
    file.write_all(said)
}
