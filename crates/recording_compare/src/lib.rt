// A record of a field recording beside what the definition gives for its step (document 02, order 8), as four words.
#![tactic(auto)]

ghost use Rattle.std.specs.Prelude.{suc, ◌+◌, ◌*◌, ◌^◌, ◌≤◌, ◌≡◌, length, take, drop};
ghost use Rattle.standard.specs.Lanes.{digits};
ghost use Rattle.recording_fields.specs.Definition.{trace, differs, compared};
ghost use Rattle.recording_compare.specs.Verdict.{verdict_of};

use memory_access::Number;
use recording_fields::{ending_word, scalar_word};

/// What a replay says of a recording.
#[derive(Clone, Copy, PartialEq, Eq, Debug)]
pub enum Verdict {
    Agrees,
    /// the first record that is not what the definition gives, counted from 1
    Differs(u16),
}

fn word(bytes: &[u8], at: usize) -> u64
    requires { at + 8 ≤ length bytes.now }
    ensures { digits 8 8 result ≡ take 8 (drop at bytes.now) }
{
    u64::read(&bytes[at..at + 8])
}

// "the first record that isn't, counted from 1"
fn not_the_same(place: u8) -> Verdict
    ensures { verdict_of result ≡ differs (suc place) }
{
    Verdict::Differs(place as u16 + 1)
}

// The record at a place, counted from 0, beside what the definition gives for its step: the halves of the vector written, the number of the refusal, and the
// scalar's kind and bits.
pub fn compare(
    bytes: &[u8],
    place: u8,
    lo: u64,
    hi: u64,
    refused: u8,
    kind: u8,
    bits: u64,
) -> Verdict
    ensures { verdict_of result ≡ compared place bytes.now (trace (lo + 2 ^ 64 * hi) refused kind bits) }
{
    if bytes.len() != 64 {
        return not_the_same(place);
    }
    let a = word(bytes, 32);
    let b = word(bytes, 40);
    let c = word(bytes, 48);
    let d = word(bytes, 56);
    let wanted = ending_word(refused, kind);
    let scalar = scalar_word(kind, bits);
    if (a == lo) & (b == hi) & (c == wanted) & (d == scalar) {
        return Verdict::Agrees;
    }
    not_the_same(place)
}
