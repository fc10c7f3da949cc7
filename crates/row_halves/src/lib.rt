// i8x16 add, exclusive-or and popcnt over lent rows of vectors, written over the first row (document 02, order 6). Here a row is of 64-bit halves: a vector is
// two of them, the low half first. No lane reaches from one half into the other, so a row is done half by half.
#![tactic(auto)]

ghost use Rattle.std.specs.Prelude.{ℕ, ◌≡◌, ◌<◌, ◌^◌, map, length};
ghost use Rattle.standard.specs.Integer.{iadd, ixor, ipopcnt};
ghost use Rattle.standard.specs.Lanes.{unary, binary, zip};
ghost use Rattle.row_halves.specs.Rows.{vectors, halves, half_refusal, after, ByHalves};
ghost use Rattle.standard_refusal.specs.Number.{code_of};

use packed_count::popcnt8;
use packed_half::masks::Lanes8;
use packed_sum::arithmetic::add;
use standard_refusal::Refusal;

// "12 when the two rows differ in length or a row of halves is odd".
fn judge(n: usize, m: usize) -> Result<(), Refusal>
    ensures { code_of result ≡ half_refusal n m }
{
    if n % 2 != 0 {
        return Err(Refusal::Rows);
    }
    if n != m {
        return Err(Refusal::Rows);
    }
    Ok(())
}

// An operation on two rows: where every call of f gives what `half` does to two halves, and `half` does to each half what `whole` does to both, that is `whole`
// of the vectors.
fn combine<F: Fn(u64, u64) -> u64>(first: &mut [u64], second: &[u64], f: F) -> Result<(), Refusal>
    requires { F.IsAlwaysCallable f }
    ensures value { code_of result ≡ half_refusal (length first.old) (length second.now) }
    ensures first_after { (whole half : ℕ → ℕ → ℕ) → ByHalves whole half → ((x y r : ℕ) → x < 2 ^ 64 → y < 2 ^ 64 → F.post f x y r → r ≡ half x y) → first.new ≡ after (code_of result) (halves (zip whole (vectors first.old) (vectors second.now))) first.old }
{
    judge(first.len(), second.len())?;
    // By index: an edit that ends the loop early is then refused by the promise, and not for its form.
    for i in 0..first.len() {
        first[i] = f(first[i], second[i]);
    }
    Ok(())
}

pub fn i8x16_add(first: &mut [u64], second: &[u64]) -> Result<(), Refusal>
    ensures value { code_of result ≡ half_refusal (length first.old) (length second.now) }
    ensures first_after { first.new ≡ after (code_of result) (halves (zip (binary 8 (iadd 8)) (vectors first.old) (vectors second.now))) first.old }
{
    combine(first, second, add::<Lanes8>)
}

pub fn v128_xor(first: &mut [u64], second: &[u64]) -> Result<(), Refusal>
    ensures value { code_of result ≡ half_refusal (length first.old) (length second.now) }
    ensures first_after { first.new ≡ after (code_of result) (halves (zip (ixor 128) (vectors first.old) (vectors second.now))) first.old }
{
    combine(first, second, |a, b| a ^ b)
}

pub fn i8x16_popcnt(first: &mut [u64]) -> Result<(), Refusal>
    ensures value { code_of result ≡ half_refusal (length first.old) (length first.old) }
    ensures first_after { first.new ≡ after (code_of result) (halves (map (unary 8 (ipopcnt 8)) (vectors first.old))) first.old }
{
    judge(first.len(), first.len())?;
    for half in first.iter_mut() {
        *half = popcnt8(*half);
    }
    Ok(())
}
