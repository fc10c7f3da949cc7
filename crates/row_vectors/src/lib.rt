// i8x16 add, exclusive-or and popcnt over lent rows of vectors, written over the first row (document 02, order 6), in the form that documents 01 and 02 name: a
// row is a slice of vector structs.
#![tactic(auto)]

ghost use Rattle.std.specs.Prelude.{ℕ, ◌≡◌};
ghost use Rattle.standard.specs.Integer.{iadd, ixor, ipopcnt};
ghost use Rattle.standard.specs.Lanes.{unary, binary};
ghost use Rattle.standard_refusal.specs.Number.{code_of};
ghost use Rattle.simd.specs.Number.{number};
ghost use Rattle.simd.specs.declared.V128.{V128};
ghost use Rattle.row_vectors.specs.Rows.{Combined, Mapped};

use simd::V128;
use standard_refusal::Refusal;

// "12 when the two rows differ in length".
fn combine<F: Fn(V128, V128) -> V128>(
    first: &mut [V128],
    second: &[V128],
    f: F,
) -> Result<(), Refusal>
    requires { F.IsAlwaysCallable f }
    ensures { (g : ℕ → ℕ → ℕ) → ((a b r : V128) → F.post f a b r → number r ≡ g (number a) (number b)) → Combined g first.old second.now (code_of result) first.new }
{
    if first.len() != second.len() {
        return Err(Refusal::Rows);
    }
    // By index in the second row: of `iter_mut` behind another adapter than `enumerate` the library says nothing of the elements.
    for (i, a) in first.iter_mut().enumerate() {
        *a = f(*a, second[i]);
    }
    Ok(())
}

pub fn i8x16_add(first: &mut [V128], second: &[V128]) -> Result<(), Refusal>
    ensures { Combined (binary 8 (iadd 8)) first.old second.now (code_of result) first.new }
{
    combine(first, second, packed_vector::i8x16_add)
}

pub fn v128_xor(first: &mut [V128], second: &[V128]) -> Result<(), Refusal>
    ensures { Combined (ixor 128) first.old second.now (code_of result) first.new }
{
    combine(first, second, V128::v128_xor)
}

// No row is refused.
pub fn i8x16_popcnt(first: &mut [V128])
    ensures { Mapped (unary 8 (ipopcnt 8)) first.old first.new }
{
    for a in first.iter_mut() {
        *a = packed_vector::i8x16_popcnt(*a);
    }
}
