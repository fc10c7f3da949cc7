// The registers as a run holds them: 32 words, two for each register, low half first, which a step reads and writes where they stand. Words and not vectors,
// since C lends them so (`gatulefo_run`, `gatulefo_step`) and nothing is copied.
ghost use Rattle.std.specs.Prelude.{◌≡◌, map, ◌+◌, ◌%◌, ◌<◌, length, get_or, set};
ghost use Rattle.simd.specs.Number.{number};
ghost use Rattle.calculator_state.specs.State.{vectors};

use calculator_rules::fields::byte;
use simd::V128;

// The register that the low four bits of a number name: a judged number has no other.
pub fn get(w: &[u64; 32], register: u8) -> V128
    ensures { number result ≡ get_or (vectors w.now) (register % 16) 0 }
{
    let i = 2 * ((register % 16) as usize);
    V128 {
        lo: w[i],
        hi: w[i + 1],
    }
}

// The registers that bytes 3, 4 and 5 of a step name: "3, 4, 5 sources a, b, c" (document 01).
pub fn source_a(w: &[u64; 32], s: &[u8]) -> V128
    ensures { number result ≡ get_or (vectors w.now) (get_or s.now 3 0 % 16) 0 }
{
    get(w, byte(s, 3))
}

pub fn source_b(w: &[u64; 32], s: &[u8]) -> V128
    ensures { number result ≡ get_or (vectors w.now) (get_or s.now 4 0 % 16) 0 }
{
    get(w, byte(s, 4))
}

pub fn source_c(w: &[u64; 32], s: &[u8]) -> V128
    ensures { number result ≡ get_or (vectors w.now) (get_or s.now 5 0 % 16) 0 }
{
    get(w, byte(s, 5))
}

pub fn put(w: &mut [u64; 32], register: u8, v: V128)
    ensures { vectors w.new ≡ set (vectors w.old) (register % 16) (number v) }
{
    store(w, 2 * ((register % 16) as usize), v);
}

fn store(w: &mut [u64], i: usize, v: V128)
    requires { i + 1 < length w.old }
    ensures { w.new ≡ set (set w.old i v.lo) (i + 1) v.hi }
{
    w[i] = v.lo;
    w[i + 1] = v.hi;
}

pub fn words(all: [V128; 16]) -> [u64; 32]
    ensures { vectors result ≡ map number all }
{
    let mut w = [0u64; 32];
    for i in 0..16 {
        let v = all[i];
        put(&mut w, i as u8, v);
    }
    w
}

pub fn of_words(w: [u64; 32]) -> [V128; 16]
    ensures { map number result ≡ vectors w }
{
    let mut all = [V128 { lo: 0, hi: 0 }; 16];
    for i in 0..16 {
        all[i] = get(&w, i as u8);
    }
    all
}
