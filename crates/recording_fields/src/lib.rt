// A record of a field recording (document 02, order 8): the step, and the trace that it leaves, written as four words.
#![tactic(auto)]

ghost use Rattle.std.specs.Prelude.{◌+◌, ◌*◌, ◌^◌, ◌≤◌, ◌≡◌, ◌∷◌, length, replicate};
ghost use Rattle.standard.specs.Lanes.{digits};
ghost use Rattle.standard.specs.Memory.{with_number};
ghost use Rattle.recording_fields.specs.Definition.{wide, scalar_bytes, trace, recorded};

use memory_access::Number;

pub fn is_wide(kind: u8) -> bool
    ensures { result ≡ wide kind }
{
    (kind == 1) | (kind == 3)
}

// The word of the refusal number, the scalar's kind and six zeros.
pub fn ending_word(refused: u8, kind: u8) -> u64
    ensures { digits 8 8 result ≡ refused ∷ kind ∷ replicate 6 0 }
{
    refused as u64 + 256 * (kind as u64)
}

// The word of the scalar's bits.
pub fn scalar_word(kind: u8, bits: u64) -> u64
    ensures { digits 8 8 result ≡ scalar_bytes kind bits }
{
    if is_wide(kind) {
        bits
    } else {
        bits % 4294967296
    }
}

fn put_word(out: &mut [u8], at: usize, x: u64)
    requires { at + 8 ≤ length out.old }
    ensures { out.new ≡ with_number out.old at 8 x }
{
    x.write(&mut out[at..at + 8]);
}

// The record of a step of 32 bytes, over 64 bytes.
pub fn put(out: &mut [u8], s: &[u8], lo: u64, hi: u64, refused: u8, kind: u8, bits: u64)
    ensures { out.new ≡ recorded out.old s.now (trace (lo + 2 ^ 64 * hi) refused kind bits) }
{
    if out.len() == 64 {
        if s.len() == 32 {
            out[..32].copy_from_slice(s);
            put_word(out, 32, lo);
            put_word(out, 40, hi);
            put_word(out, 48, ending_word(refused, kind));
            put_word(out, 56, scalar_word(kind, bits));
        }
    }
}
