// Lanes in another format, over arrays of lanes. Where a vector of 32-bit lanes becomes one of 64-bit lanes, or the other way round, here stands which lanes
// are taken and where zeros are put; what is done to a lane is told by a function.
#![tactic(auto)]

ghost use Rattle.std.specs.Prelude.{◌≡◌, ℕ, ◌∷◌, [], map};
ghost use Rattle.standard.specs.Lanes.{joined, low_half};

pub use lane_float_integral::{fceil, ffloor, fnearest, ftrunc};
pub use lane_float_narrow::{convert_s32x4, convert_u32x4, demote};
pub use lane_float_saturate::{trunc_sat_s32x4, trunc_sat_s64, trunc_sat_u32x4, trunc_sat_u64};
pub use lane_float_widen::{convert_s64, convert_u64, promote};

// Each of four lanes. An array's own `map` goes through an iterator that owns the array, which takes more instructions than the four calls.
pub fn each32<F: Fn(u32) -> u32>(f: F, a: [u32; 4]) -> [u32; 4]
    requires { F.IsAlwaysCallable f }
    ensures { (g : ℕ → ℕ) → ((x r : ℕ) → F.post f x r → r ≡ g x) → result ≡ map g a }
{
    [f(a[0]), f(a[1]), f(a[2]), f(a[3])]
}

// The low lanes; the higher of the two first, which is a shift of its half and so is tested by the way.
pub fn low<F: Fn(u32) -> u64>(f: F, a: [u32; 4]) -> [u64; 2]
    requires { F.IsAlwaysCallable f }
    ensures { (g : ℕ → ℕ) → ((x r : ℕ) → F.post f x r → r ≡ g x) → result ≡ map g (low_half a) }
{
    let high = f(a[1]);
    [f(a[0]), high]
}

// The half of these lanes, lowest first.
fn half(a: u32, b: u32) -> u64
    ensures { result ≡ joined 32 (a ∷ b ∷ []) }
{
    (a as u64) + 4294967296 * ((b as u64))
}

// Both lanes, in the low half; the high half is zeros.
pub fn zero<F: Fn(u64) -> u32>(f: F, a: [u64; 2]) -> [u64; 2]
    requires { F.IsAlwaysCallable f }
    ensures { (g : ℕ → ℕ) → ((x r : ℕ) → F.post f x r → r ≡ g x) → result ≡ joined 32 (map g a) ∷ 0 ∷ [] }
{
    let low = a[0];
    let high = a[1];
    [half(f(low), f(high)), 0]
}
