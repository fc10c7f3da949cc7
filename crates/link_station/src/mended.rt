// What comes back of mending.
ghost use Rattle.std.specs.Prelude.{◌≡◌, map};
ghost use Rattle.recording_mending_place.specs.Mended.{number_of};
ghost use Rattle.recording_mending.specs.Mended.{mending_of};
ghost use Rattle.link_station.specs.Mending.{mended_of};

use recording_mending::Mending;
use recording_mending_place::Bit;
use standard_refusal::Refusal;

// How many blocks were written, whether the block after them could not be mended, and of each block written the bit that was put back, or 4096 for none. Or the
// number of a refusal, 13 or 16, and nothing is written; else 0.
#[repr(C)]
#[derive(Clone, Copy)]
pub struct MendAnswer {
    pub refused: u8,
    pub written: usize,
    pub stopped: bool,
    pub bits: [u16; 37],
}

fn number(bit: Option<Bit>) -> u16
    ensures { result ≡ number_of bit }
{
    match bit {
        Some(bit) => bit.number,
        None => 4096,
    }
}

fn numbers(bits: [Option<Bit>; 37]) -> [u16; 37]
    ensures { result ≡ map number_of bits }
{
    bits.map(|bit| number(bit))
}

pub fn mend_answer(answer: Result<Mending, Refusal>) -> MendAnswer
    ensures { mended_of result ≡ mending_of answer }
{
    match answer {
        Ok(mending) => MendAnswer {
            refused: 0,
            written: mending.written,
            stopped: mending.stopped,
            bits: numbers(mending.bits),
        },
        Err(refusal) => MendAnswer {
            refused: u8::from(refusal),
            written: 0,
            stopped: false,
            bits: [4096; 37],
        },
    }
}
