// The distances of 256 windows of a buffer that follow each other, each the count of ones of an exclusive-or of two words. No turn of a loop decides anything,
// and neighbours in an array have the same shift, so the compiler takes four at once.
#![tactic(auto)]

ghost use Rattle.std.specs.Prelude.{ℕ, ◌+◌, ◌*◌, ◌-◌, ◌/◌, ◌%◌, ◌^◌, ◌<◌, ◌≤◌, ◌≡◌, List, length, get_or, take, drop};
ghost use Rattle.finder_windows.specs.Definition.{binary, bits};
ghost use Rattle.finder_distances.specs.Windows.{Laid, Spread};

// The number of the 32 bits from a byte on.
fn four_at(buffer: &[u8], at: usize) -> u32
    requires { at + 4 ≤ length buffer.now }
    ensures { binary 32 result ≡ bits (take 4 (drop at buffer.now)) }
{
    let mut word: u64 = 0;
    for i in 0..4 {
        word = word * 256 + finder_windows::wide(buffer[at + i]);
    }
    word as u32
}

// The 32 bits that begin in each of 33 bytes, and the byte after them.
fn spread(buffer: &[u8], byte: usize, heads: &mut [u32; 33], nexts: &mut [u32; 33])
    requires { byte + 37 ≤ length buffer.now }
    ensures { Spread buffer.now byte heads.old nexts.old 0 → Spread buffer.now byte heads.new nexts.new 33 }
{
    for j in 0..33 {
        heads[j] = four_at(buffer, byte + j);
        nexts[j] = buffer[byte + j + 4] as u32;
    }
}

// The 32 bits that stand some places below the top of 40.
fn seen(head: u32, next: u32, shift: usize) -> u32
    requires next_bound { next < 256 }
    requires shift_bound { shift < 8 }
    ensures { result ≡ (head * 256 + next) / 2 ^ (8 - shift) % 2 ^ 32 }
{
    (head << shift) + (next >> (8 - shift))
}

// The windows that begin k bits after the first in each of 32 bytes.
fn row(
    heads: &[u32; 33],
    nexts: &[u32; 33],
    bit: usize,
    k: usize,
    marker: u32,
    away: &mut [u32; 256],
)
    requires bit_bound { bit < 8 }
    requires k_bound { k < 8 }
    requires nexts_are_bytes { (j : ℕ) → j < 33 → get_or nexts.now j 0 < 256 }
    ensures { (bs : List ℕ) (byte : ℕ) → byte + 37 ≤ length bs → Spread bs byte heads.now nexts.now 33 → Laid bs (8 * byte + bit) marker away.old (32 * k) → Laid bs (8 * byte + bit) marker away.new (32 * k + 32) }
{
    let skip = (bit + k) / 8;
    let shift = (bit + k) % 8;
    for j in 0..32 {
        let word = seen(heads[skip + j], nexts[skip + j], shift);
        away[32 * k + j] = finder_windows::apart(word, marker);
    }
}

// The distances of the 256 windows from a bit on. A buffer that is too short for them leaves the array as it was.
pub fn distances(buffer: &[u8], p: usize, marker: u32, away: &mut [u32; 256])
    ensures laid { p / 8 + 37 ≤ length buffer.now → Laid buffer.now p marker away.old 0 → Laid buffer.now p marker away.new 256 }
    ensures away_unchanged { length buffer.now < p / 8 + 37 → away.new ≡ away.old }
{
    let byte = p / 8;
    if buffer.len() < 37 {
        return;
    }
    if buffer.len() - 37 < byte {
        return;
    }
    let mut heads = [0u32; 33];
    let mut nexts = [0u32; 33];
    spread(buffer, byte, &mut heads, &mut nexts);
    for k in 0..8 {
        row(&heads, &nexts, p % 8, k, marker, away);
    }
}
