// What becomes of one block of a recording (document 02, order 10): which bit is put back, none, or that no bit mends it.
#![tactic(auto)]

ghost use Rattle.std.specs.Prelude.{◌≡◌, cond, eqb, length};
ghost use Rattle.recording_crc16.specs.Remainder.{shift};
ghost use Rattle.recording_mending_rules.specs.Definition.{beyond, mended};
ghost use Rattle.recording_mending_rules.specs.Place.{Place};
ghost use Rattle.recording_mending_place.specs.Mended.{number_of, mended_of};

mod bit;

pub use bit::Bit;
use recording_crc16::check;

/// The block's check is wrong, and no single bit mends it.
#[derive(Clone, Copy, PartialEq, Eq, Debug)]
pub struct Beyond;

// A register times x.
fn next(r: u16) -> u16
    ensures { result ≡ shift r }
{
    ((r >> 15) * 4129) ^ (r << 1)
}

// The bit whose flip gives the register q, found by a walk over the powers of x from the last bit on.
fn walk(q: u16) -> Option<Bit>
    ensures { Place q (number_of result) }
{
    let mut power: u16 = 4129;
    for i in 0..4096 {
        if power == q {
            return Some(Bit { number: 4095 - i });
        }
        power = next(power);
    }
    None
}

// What becomes of a block: the bit to put back, if any. Bytes that are not 512 are no block, and can not be mended.
pub fn place(b: &[u8]) -> Result<Option<Bit>, Beyond>
    ensures { mended_of result ≡ cond (eqb (length b.now) 512) (mended b.now) beyond }
{
    if b.len() != 512 {
        return Err(Beyond);
    }
    let q = check(b);
    if q == 0 {
        return Ok(None);
    }
    match walk(q) {
        Some(bit) => Ok(Some(bit)),
        None => Err(Beyond),
    }
}
