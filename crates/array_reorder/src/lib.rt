// The bytes of vectors in another order, over arrays: what swizzle and shuffle share.
#![tactic(auto)]

ghost use Rattle.std.specs.Prelude.{◌≡◌, ◌++◌, map, ◌≤◌, ◌%◌, get_or, take};
ghost use Rattle.std.proofs.Math.Seq.{paste};
ghost use Rattle.standard.specs.Integer.{imin_u};
ghost use Rattle.standard.specs.Refusal.{legal};

// `t` with the sixteen bytes of `a` from place `at` on.
fn put(t: [u8; 32], at: usize, a: [u8; 16]) -> [u8; 32]
    requires { at ≤ 16 }
    ensures { result ≡ paste t at a 16 }
{
    let mut out = t;
    for i in 0..16 {
        let j = at + i;
        out[j] = a[i];
    }
    out
}

// The bytes of one vector after those of another, as indices 0 to 31 name them.
pub fn beside(a: [u8; 16], b: [u8; 16]) -> [u8; 32]
    ensures { result ≡ a ++ b }
{
    put(put([0u8; 32], 0, a), 16, b)
}

// Whether every index is one of the table's: refusal 5 is "a shuffle index above 31".
pub fn all_legal(s: [u8; 16]) -> bool
    ensures { result ≡ legal s }
{
    for i in 0..16 {
        if 31 < s[i] {
            return false;
        }
    }
    true
}

// The bytes of the table that the indices name modulo 32.
pub fn picked(t: [u8; 32], s: [u8; 16]) -> [u8; 16]
    ensures { result ≡ map (λ i. get_or t (i % 32) 0) s }
{
    let mut out = [0u8; 16];
    for i in 0..16 {
        let j = (s[i] % 32) as usize;
        out[i] = t[j];
    }
    out
}

// "An index of 16 to 255 gives 0" (document 01, "Lane rules"): held to 16, it names the first zero after the sixteen bytes.
fn capped(i: u8) -> u8
    ensures { result ≡ imin_u 8 i 16 }
{
    if i < 16 { i } else { 16 }
}

// Over as many places as the compiler makes vectors of (docs/DECISIONS.md, "Idle places").
fn all_capped(s: [u8; 64]) -> [u8; 64]
    ensures { result ≡ map (λ i. imin_u 8 i 16) s }
{
    let mut out = [0u8; 64];
    for i in 0..64 {
        out[i] = capped(s[i]);
    }
    out
}

fn first(s: [u8; 64]) -> [u8; 16]
    ensures { result ≡ take 16 s }
{
    let mut out = [0u8; 16];
    for i in 0..16 {
        out[i] = s[i];
    }
    out
}

// The bytes that the indices in the first sixteen places name, and 0 where an index names none.
pub fn swizzled(t: [u8; 16], s: [u8; 64]) -> [u8; 16]
    ensures { result ≡ map (λ i. get_or t i 0) (take 16 s) }
{
    picked(beside(t, [0; 16]), first(all_capped(s)))
}
