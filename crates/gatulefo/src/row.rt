// i8x16 add, exclusive-or and popcnt over a lent row of vectors, written over the first row (document 02, order 6). A row is of 64-bit halves, two a vector,
// the low one first. What comes back is the number of the refusal, 12 where the rows differ in length or a row has an odd number of halves, or 0; nothing is
// written where there is one.
ghost use Rattle.std.specs.Prelude.{◌≡◌, map, length};
ghost use Rattle.standard.specs.Integer.{iadd, ixor, ipopcnt};
ghost use Rattle.standard.specs.Lanes.{unary, binary, zip};
ghost use Rattle.row_halves.specs.Rows.{vectors, halves, half_refusal, after};

use standard_refusal::code;

#[unsafe(no_mangle)]
pub extern "C" fn gatulefo_row_i8x16_add(first: &mut [u64], second: &[u64]) -> u8
    ensures value { result ≡ half_refusal (length first.old) (length second.now) }
    ensures first_after { first.new ≡ after result (halves (zip (binary 8 (iadd 8)) (vectors first.old) (vectors second.now))) first.old }
{
    code(row_halves::i8x16_add(first, second))
}

#[unsafe(no_mangle)]
pub extern "C" fn gatulefo_row_v128_xor(first: &mut [u64], second: &[u64]) -> u8
    ensures value { result ≡ half_refusal (length first.old) (length second.now) }
    ensures first_after { first.new ≡ after result (halves (zip (ixor 128) (vectors first.old) (vectors second.now))) first.old }
{
    code(row_halves::v128_xor(first, second))
}

#[unsafe(no_mangle)]
pub extern "C" fn gatulefo_row_i8x16_popcnt(first: &mut [u64]) -> u8
    ensures value { result ≡ half_refusal (length first.old) (length first.old) }
    ensures first_after { first.new ≡ after result (halves (map (unary 8 (ipopcnt 8)) (vectors first.old))) first.old }
{
    code(row_halves::i8x16_popcnt(first))
}
