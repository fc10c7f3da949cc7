// Bytes of a buffer passed over in which every window is too far from the marker, by columns. What is near is looked at by whoever asks.
#![tactic(auto)]

ghost use Rattle.std.specs.Prelude.{◌≡◌, ℕ, ◌+◌, ◌-◌, ◌*◌, ◌^◌, ◌<◌, ◌≤◌, min, true, length, slice_index};
ghost use Rattle.finder_columns.specs.Columns.{eight, Columns};
ghost use Rattle.finder_passing.specs.Next.{away, Far, Next};

use std::num::wrapping_add_u64;

// The top bit of each lane of 8 bits.
const TOPS: u64 = 0x8080_8080_8080_8080;

// The entry for one byte, in a column that begins at a place of the table.
fn looked_up<'a>(buffer: &'a [u8], i: usize, table: &'a [u64; 1280], from: usize) -> u64
    requires i_in_bounds { i < length buffer.now }
    requires from_bound { from ≤ 1024 }
    ensures { (slice_index buffer.now i < 256) × (result ≡ slice_index table.now (from + slice_index buffer.now i)) }
{
    table[from + buffer[i] as usize]
}

// The distances of the eight windows that begin in a byte, a lane for each, with 127 less the tolerance.
fn lanes<'a>(buffer: &'a [u8], at: usize, table: &'a [u64; 1280]) -> u64
    requires { at + 5 ≤ length buffer.now }
    ensures { (m t : ℕ) → m < 2 ^ 32 → Columns m t table.now → result ≡ eight (λ i. 127 - t + away buffer.now m (8 * at + i)) }
{
    let sum = wrapping_add_u64(
        looked_up(buffer, at, table, 0),
        looked_up(buffer, at + 1, table, 256),
    );
    let sum = wrapping_add_u64(sum, looked_up(buffer, at + 2, table, 512));
    let sum = wrapping_add_u64(sum, looked_up(buffer, at + 3, table, 768));
    wrapping_add_u64(sum, looked_up(buffer, at + 4, table, 1024))
}

// Whether n bytes stand below a last place and the windows that begin in them are all too far.
fn passes<'a>(buffer: &'a [u8], at: usize, n: usize, last: usize, table: &'a [u64; 1280]) -> bool
    requires at_le_last { at ≤ last }
    requires last_in_bounds { last + 4 ≤ length buffer.now }
    requires n_bound { n ≤ 8 }
    ensures within { result ≡ true → at + n ≤ last }
    ensures far { (m t : ℕ) → m < 2 ^ 32 → Columns m t table.now → result ≡ true → Far buffer.now m t at (at + n) }
    ensures all_far { (m t : ℕ) → m < 2 ^ 32 → Columns m t table.now → at + n ≤ last → Far buffer.now m t at (at + n) → result ≡ true }
{
    if last - at < n {
        return false;
    }
    let mut tops = TOPS;
    for i in 0..n {
        tops = tops & lanes(buffer, at + i, table);
    }
    tops == TOPS
}

// The first place, in steps of n bytes, that does not pass.
fn passed<'a>(buffer: &'a [u8], from: usize, n: usize, last: usize, table: &'a [u64; 1280]) -> usize
    requires from_le_last { from ≤ last }
    requires last_in_bounds { last + 4 ≤ length buffer.now }
    requires le_n { 1 ≤ n }
    requires n_bound { n ≤ 8 }
    ensures within { (from ≤ result) × (result ≤ last) }
    ensures far { (m t : ℕ) → m < 2 ^ 32 → Columns m t table.now → Far buffer.now m t from result }
    ensures stops { (m t : ℕ) → m < 2 ^ 32 → Columns m t table.now → result + n ≤ last → Far buffer.now m t result (result + n) → ⊥ }
{
    let mut at = from;
    while passes(buffer, at, n, last, table) {
        at += n;
    }
    at
}

// The bytes below an end that have four after them.
fn inside(buffer: &[u8], end: usize) -> usize
    ensures { result ≡ min end (length buffer.now - 4) }
{
    end.min(buffer.len().saturating_sub(4))
}

// The first byte from a byte on, below an end, in which a window within the tolerance begins. A byte is asked alone first: windows that are near come together.
// Then eight at a time, and at the end one by one.
pub fn next<'a>(buffer: &'a [u8], from: usize, end: usize, table: &'a [u64; 1280]) -> usize
    ensures { (m t : ℕ) → m < 2 ^ 32 → Columns m t table.now → Next buffer.now m t from end result }
{
    let last = inside(buffer, end);
    if last <= from {
        return from;
    }
    if passes(buffer, from, 1, last, table) {
        let at = passed(buffer, from, 8, last, table);
        return passed(buffer, at, 1, last, table);
    }
    from
}
