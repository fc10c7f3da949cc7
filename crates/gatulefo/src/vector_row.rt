// i8x16 add, exclusive-or and popcnt over a lent row of vectors, written over the first row (document 02, order 6), in the form that the order names: a row is
// a slice of vectors. What comes back of two rows is the number of the refusal, 12 where they differ in length, or 0; nothing is written where there is one.
ghost use Rattle.standard.specs.Integer.{iadd, ixor, ipopcnt};
ghost use Rattle.standard.specs.Lanes.{unary, binary};
ghost use Rattle.row_vectors.specs.Rows.{Combined, Mapped};

use simd::V128;
use standard_refusal::code;

#[unsafe(no_mangle)]
pub extern "C" fn gatulefo_vector_row_i8x16_add(first: &mut [V128], second: &[V128]) -> u8
    ensures { Combined (binary 8 (iadd 8)) first.old second.now result first.new }
{
    code(row_vectors::i8x16_add(first, second))
}

#[unsafe(no_mangle)]
pub extern "C" fn gatulefo_vector_row_v128_xor(first: &mut [V128], second: &[V128]) -> u8
    ensures { Combined (ixor 128) first.old second.now result first.new }
{
    code(row_vectors::v128_xor(first, second))
}

#[unsafe(no_mangle)]
pub extern "C" fn gatulefo_vector_row_i8x16_popcnt(first: &mut [V128])
    ensures { Mapped (unary 8 (ipopcnt 8)) first.old first.new }
{
    row_vectors::i8x16_popcnt(first);
}
