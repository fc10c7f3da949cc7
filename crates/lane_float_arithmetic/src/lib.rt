// Arithmetic of two float lanes of 64 bits (the standard, 4.3.3 "Floating-Point Operations"; document 02, order 4). The operations themselves are those of
// `lane_float_sums` and `lane_float_least`.
#![tactic(auto)]

ghost use Rattle.std.specs.Prelude.{◌≡◌, ℕ, ◌∷◌, [], take};
ghost use Rattle.standard.specs.Lanes.{joined, binary};

pub use lane_float_least::{fmax, fmin};
pub use lane_float_sums::{fadd, fdiv, fmul, fsub};

// The two lanes before the idle places.
fn lanes64(s: [u64; 20]) -> [u64; 2]
    ensures { result ≡ take 2 s }
{
    [s[0], s[1]]
}

// Two lanes of 64 bits, a and b, with two others, c and d. They are followed by 18 idle places, whose results are dropped: over 12 places the loop is not
// vectorised, over 28 or more one is left (docs/DECISIONS.md, "Idle places").
pub fn pairs64<F: Fn(u64, u64) -> u64>(f: F, a: u64, b: u64, c: u64, d: u64) -> [u64; 2]
    requires { F.IsAlwaysCallable f }
    ensures { (g : ℕ → ℕ → ℕ) → ((x y r : ℕ) → F.post f x y r → r ≡ g x y)
        → joined 64 result ≡ binary 64 g (joined 64 (a ∷ b ∷ [])) (joined 64 (c ∷ d ∷ [])) }
{
    let mut x = [0; 20];
    let mut y = [0; 20];
    x[0] = a;
    x[1] = b;
    y[0] = c;
    y[1] = d;
    for i in 0..20 {
        x[i] = f(x[i], y[i]);
    }
    lanes64(x)
}
