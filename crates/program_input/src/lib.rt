// Standard input, as far as it decides anything.
#![tactic(auto)]

ghost use Rattle.std.specs.Prelude.{◌≡◌, ◌<◌, None, length, take};
ghost use Rattle.std.specs.Io.KnownBytes.{Consumes, IsAtEnd};
ghost use Rattle.io.specs.Counts.{IsPrefixLen};

use std::io;
use std::io::Read;

#[derive(Clone, Copy)]
pub struct Reading {
    // How many bytes came; they stand at the start of the buffer.
    pub bytes: usize,
    // Whether a read failed, and why: what came before is then no input.
    pub failed: Option<io::Error>,
}

// Reads until the input ends or the buffer is full. One read may bring fewer bytes than it was asked for.
pub fn read_to<R: Read>(input: &mut R, buffer: &mut [u8]) -> Reading
    ensures prefix_len { IsPrefixLen result.bytes buffer.new }
    ensures bytes { Consumes (R.remaining input.old) (R.remaining input.new) (take result.bytes buffer.new) }
    ensures ended { result.failed ≡ None → result.bytes < length buffer.new → IsAtEnd (R.remaining input.new) }
{
    let mut bytes = 0;
    while bytes < buffer.len() {
        match input.read(&mut buffer[bytes..]) {
            Ok(0) => {
                return Reading {
                    bytes,
                    failed: None,
                };
            }
            Ok(more) => bytes += more,
            Err(error) => {
                return Reading {
                    bytes,
                    failed: Some(error),
                };
            }
        }
    }
    Reading {
        bytes,
        failed: None,
    }
}
