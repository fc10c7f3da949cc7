// What the marker finder is made of (document 02, order 5): its definition (specs/), the laws of windows and distances (proofs/), and the code that needs only
// those: the distance of two words, what a position gives, and what is refused before the search.
#![tactic(auto)]

ghost use Rattle.std.specs.Prelude.{◌+◌, ◌≡◌, cond, ◌&&◌, ltb, leb};
ghost use Rattle.std.proofs.Math.ListN as List;
ghost use Rattle.standard_refusal.specs.Number.{code_of};
ghost use Rattle.finder_windows.specs.Definition.{binary, bits, marker_bits, distance, found, refused, refusal, barred};
ghost use Rattle.finder_windows.specs.Answer.{met_or_none};

use standard_refusal::Refusal;

/// Where the marker stands, with the distances of the window there and of the one a frame later.
#[derive(Clone, Copy)]
pub struct Found {
    pub position: usize,
    pub first: u32,
    pub second: u32,
}

// A byte as a word, its top bit above the others.
pub fn wide(byte: u8) -> u64
    ensures { result ≡ byte }
{
    byte as u64
}

// In how many bits a word differs from the marker, in the form that document 01 names.
pub fn apart(seen: u32, marker: u32) -> u32
    ensures { result ≡ distance (binary 32 seen) (marker_bits marker) }
{
    u32::count_ones(seen ^ marker)
}

// What a position gives, by the distances of its window and of the one a frame later.
pub fn judged(position: usize, first: u32, second: u32, tolerance: u32) -> Option<Found>
    ensures { met_or_none result ≡ cond (leb first tolerance && leb second tolerance) (found position first second) (refused 11) }
{
    if (first <= tolerance) & (second <= tolerance) {
        Some(Found {
            position,
            first,
            second,
        })
    } else {
        None
    }
}

// Whether the buffer has fewer bits than a frame and a marker: whole bytes are counted, and no product can pass the number's end.
fn is_short(buffer: &[u8], length: u32) -> bool
    ensures { result ≡ ltb (List.length (bits buffer.now)) (length + 32) }
{
    buffer.len() < (length as usize + 39) / 8
}

// What is refused whatever the buffer.
pub fn barred(tolerance: u32, length: u32) -> Result<(), Refusal>
    ensures { code_of result ≡ barred tolerance length }
{
    if tolerance > 8 {
        return Err(Refusal::Tolerance);
    }
    if (length < 64) | (length > 65536) {
        return Err(Refusal::Frame);
    }
    Ok(())
}

// What is refused before the search, "in that order".
pub fn refusal(buffer: &[u8], tolerance: u32, length: u32) -> Result<(), Refusal>
    ensures { code_of result ≡ refusal buffer.now tolerance length }
{
    barred(tolerance, length)?;
    if (buffer.len() > 65536) | is_short(buffer, length) {
        return Err(Refusal::Buffer);
    }
    Ok(())
}
