// "popcnt counts the one bits of each 8-bit lane" (document 01, "Lane rules"; the standard, 4.3.2 "ipopcnt"), on a whole half: the counts of each two
// bits, of each four, of each eight.
#![tactic(auto)]

ghost use Rattle.std.specs.Prelude.{◌≡◌};
ghost use Rattle.standard.specs.Integer.{ipopcnt};
ghost use Rattle.packed_half.specs.Half.{half_unary};

// Every second bit, pair of bits and nibble.
const BITS: u64 = 0x5555_5555_5555_5555;

const PAIRS: u64 = 0x3333_3333_3333_3333;

const NIBBLES: u64 = 0x0f0f_0f0f_0f0f_0f0f;

pub fn popcnt8(a: u64) -> u64
    ensures { result ≡ half_unary 8 (ipopcnt 8) a }
{
    let pairs = a - ((a >> 1) & BITS);
    let nibbles = (pairs & PAIRS) + ((pairs >> 2) & PAIRS);
    (nibbles & NIBBLES) + ((nibbles >> 4) & NIBBLES)
}
