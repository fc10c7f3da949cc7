// Mending recordings (document 02, order 10): blocks whose check is wrong by one flipped bit.
#![tactic(auto)]

ghost use Rattle.std.specs.Prelude.{◌-◌, ◌%◌, ◌^◌, ◌≤◌, ◌≡◌, Ok, length};
ghost use Rattle.recording_layout.specs.Definition.{blocks};
ghost use Rattle.recording_mending_rules.specs.Definition.{block_of, done, mending};
ghost use Rattle.recording_mending_place.specs.Mended.{mended_of};
ghost use Rattle.recording_mending.specs.Mended.{mending_of};

use recording_layout::is_whole;
use recording_mending_place::{Bit, place};
use standard_refusal::Refusal;

#[derive(Clone, Copy, PartialEq, Eq, Debug)]
pub struct Mending {
    // how many blocks were written
    pub written: usize,
    // whether the block after them could not be mended
    pub stopped: bool,
    // of each block written the bit that was put back, if any
    pub bits: [Option<Bit>; 37],
}

// The weight of bit k in its byte.
fn weight(k: u16) -> u8
    ensures { result ≡ 2 ^ (7 - k % 8) }
{
    let n = (7 - k % 8) as u8;
    1 << n
}

// A block with a bit put back, or as it is.
fn put(b: &[u8; 512], bit: Option<Bit>, out: &mut [u8])
    requires { length out.old ≡ 512 }
    ensures { out.new ≡ block_of b.now (mended_of (Ok bit)) }
{
    out.copy_from_slice(b);
    if let Some(bit) = bit {
        let i = (bit.number / 8) as usize;
        out[i] ^= weight(bit.number);
    }
}

// Block after block, up to the first that can not be mended.
fn mend_blocks(file: &[u8], out: &mut [u8]) -> Mending
    requires file_bound { blocks file.now ≤ 37 }
    requires file_in_bounds { length file.now ≤ length out.old }
    ensures { (mending_of (Ok result), out.new) ≡ done file.now out.old }
{
    let mut bits = [None; 37];
    let (blocks, _) = file.as_chunks::<512>();
    for (k, block) in blocks.iter().enumerate() {
        let Ok(bit) = place(block) else {
            return Mending {
                written: k,
                stopped: true,
                bits,
            };
        };
        let from = 512 * k;
        let to = from + 512;
        put(block, bit, &mut out[from..to]);
        bits[k] = bit;
    }
    Mending {
        written: blocks.len(),
        stopped: false,
        bits,
    }
}

// The blocks of a recording, mended where one bit mends them, at the start of the output.
#[tactic(auto, unfolding(recording_mending_rules::specs::Definition::mending))]
pub fn mend(file: &[u8], out: &mut [u8]) -> Result<Mending, Refusal>
    ensures { (mending_of result, out.new) ≡ mending file.now out.old }
{
    if !is_whole(file.len()) {
        return Err(Refusal::Blocks);
    }
    if out.len() < file.len() {
        return Err(Refusal::Output);
    }
    Ok(mend_blocks(file, out))
}
