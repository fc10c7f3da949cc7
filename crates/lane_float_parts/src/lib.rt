// What the conversions of float lanes share (the standard, 4.3.3 and 4.3.4; document 02, order 14). They are worked out on bits: patterns are taken apart and
// put together with shifts, remainders, sums and comparisons.
#![tactic(auto)]

ghost use Rattle.std.specs.Prelude.{◌≡◌, ℕ, ◌++◌, ◌/◌, ◌%◌, ◌^◌, map, nat_abs, take, replicate};
ghost use Rattle.standard.specs.Integer.{signed};
ghost use Rattle.lane_float_pattern.specs.Integral.{lift};

// The magnitude of the signed number.
pub fn magnitude(n: u32) -> u32
    ensures { result ≡ nat_abs (signed 32 n) }
{
    if n < 0x8000_0000 { n } else { u32::MAX - n + 1 }
}

// What is added before the last j digits are cut off: to the even neighbour, away from zero or toward it. A shift takes j modulo 64, as the machine does.
pub fn lift(even: bool, away: bool, bits: u64, j: u64) -> u64
    ensures { result ≡ lift even away (bits / 2 ^ (j % 64)) (2 ^ (j % 64)) }
{
    let places = j % 64;
    let one: u64 = 1 << places;
    let ones = one - 1;
    if even {
        ones / 2 + (bits >> places) % 2
    } else if away {
        ones
    } else {
        0
    }
}

// Four lanes with 20 idle places after them, whose results are dropped, and the lanes before them. A loop over 20 to 28 places is vectorised with all that the
// conversions do at a place, over more one is left, over fewer it is unrolled before (docs/DECISIONS.md, "Idle places").
pub fn places(a: [u32; 4]) -> [u32; 24]
    ensures { result ≡ a ++ replicate 20 0 }
{
    let mut r = [0; 24];
    r[0] = a[0];
    r[1] = a[1];
    r[2] = a[2];
    r[3] = a[3];
    r
}

pub fn lanes(s: [u32; 24]) -> [u32; 4]
    ensures { result ≡ take 4 s }
{
    [s[0], s[1], s[2], s[3]]
}

// A function of a lane at each of four, side by side.
pub fn side_by_side<F: Fn(u32) -> u32>(f: F, a: [u32; 4]) -> [u32; 4]
    requires { F.IsAlwaysCallable f }
    ensures { (g : ℕ → ℕ) → ((x r : ℕ) → F.post f x r → r ≡ g x) → result ≡ map g a }
{
    let x = places(a);
    let mut r = [0; 24];
    for i in 0..24 {
        r[i] = f(x[i]);
    }
    lanes(r)
}
