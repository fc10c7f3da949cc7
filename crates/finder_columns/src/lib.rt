// Columns for the marker finder (document 02, order 5): five tables of 256 entries, a sum of which tells for the eight windows that begin in a byte whether
// they are too far from the marker.
#![tactic(auto)]

ghost use Rattle.std.specs.Prelude.{ℕ, ◌+◌, ◌*◌, ◌<◌, ◌≤◌, ◌≡◌, get_or};
ghost use Rattle.std.specs.Int.Bits.{bit_and, bit_xor};
ghost use Rattle.standard.specs.Integer.{ipopcnt};
ghost use Rattle.packed_half.specs.Half.{half_unary};
ghost use Rattle.finder_columns.specs.Columns.{eight, piece, slack, Made, Columns};

use packed_count::popcnt8;

// A number below 256 in each lane of 8 bits is its product with this.
const EACH: u64 = 0x0101_0101_0101_0101;

// The low and the high nibble of each lane.
const LOW: u64 = 0x0f0f_0f0f_0f0f_0f0f;

const HIGH: u64 = 0xf0f0_f0f0_f0f0_f0f0;

// What a marker has in one of the five bytes over which a window stands, in lane r for a window that begins r bits after the first one's top; zeros beside it.
fn pattern(marker: u32, q: usize) -> u64
    requires { q ≤ 4 }
    ensures { result ≡ eight (piece marker q) }
{
    let wide = (marker as u64) * 256;
    let mut lanes: u64 = 0;
    for i in 0..8 {
        lanes = lanes * 256 + (wide >> (39 - i - 8 * q)) % 256;
    }
    lanes
}

// In how many of the bits that are kept a byte differs from the marker, a lane for each of the eight windows: the exclusive-or and the count of ones of
// i8x16.popcnt's packed form, on a half.
fn counted(x: usize, seen: u64, wanted: u64, kept: u64) -> u64
    requires { x < 256 }
    ensures { result ≡ half_unary 8 (ipopcnt 8) (bit_and (bit_xor (bit_and (x * 0x0101010101010101) seen) wanted) kept) }
{
    popcnt8(((((x as u64) * EACH) & seen) ^ wanted) & kept)
}

// The counts of each low nibble.
fn low_nibbles(seen: u64, wanted: u64) -> [u64; 16]
    ensures { (x : ℕ) → x < 16 → get_or result x 0 ≡ half_unary 8 (ipopcnt 8) (bit_and (bit_xor (bit_and (x * 0x0101010101010101) seen) wanted) 0x0f0f0f0f0f0f0f0f) }
{
    let mut counts = [0; 16];
    for x in 0..16 {
        counts[x] = counted(x, seen, wanted, LOW);
    }
    counts
}

// 127 less the tolerance in each lane.
fn start(tolerance: u32) -> u64
    ensures { result ≡ eight (λ i. slack tolerance 0) }
{
    if tolerance < 127 {
        (127 - tolerance as u64) * EACH
    } else {
        0
    }
}

// One column more: a byte's count is that of its two nibbles.
fn fill(table: &mut [u64; 1280], marker: u32, tolerance: u32, q: usize, above: u64)
    requires q_bound { q ≤ 4 }
    requires above_value { above ≡ eight (λ i. slack tolerance q) }
    requires made { Made marker tolerance table.old (256 * q) }
    ensures { Made marker tolerance table.new (256 * (q + 1)) }
{
    let seen = pattern(4294967295, q);
    let wanted = pattern(marker, q);
    let low = low_nibbles(seen, wanted);
    for h in 0..16 {
        let high = above + counted(16 * h, seen, wanted, HIGH);
        for l in 0..16 {
            table[256 * q + 16 * h + l] = high + low[l];
        }
    }
}

// The columns of a marker and a tolerance.
pub fn columns(marker: u32, tolerance: u32) -> [u64; 1280]
    ensures { Columns marker tolerance result }
{
    let first = start(tolerance);
    let mut table = [first; 1280];
    fill(&mut table, marker, tolerance, 0, first);
    for q in 1..5 {
        fill(&mut table, marker, tolerance, q, 0);
    }
    table
}
