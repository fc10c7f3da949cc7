// Lanes of 8 bits in another order: swizzle by the lanes of a second vector, shuffle of two vectors by sixteen indices. An index above 31 is refused with 5.
// Behind `gatulefo_value_` the indices are the lanes of a third vector, and what comes back is the vector alone, 0 where it is refused.
ghost use Rattle.link_answers.specs.Handed.{pair, or_zero};
ghost use Rattle.simd.specs.Number.{number};
ghost use Rattle.standard.specs.Lanes.{lanes};
ghost use Rattle.standard.specs.Refusal.{at_indices};
ghost use Rattle.standard.specs.Vector.{swizzle, shuffle};
ghost use Rattle.std.specs.Prelude.{◌≡◌};

use link_answers::answer::{VectorOrRefusal, of_vector, vector_or_zero};
use simd::V128;

#[unsafe(no_mangle)]
pub extern "C" fn gatulefo_i8x16_shuffle(a: V128, b: V128, s: &[u8; 16]) -> VectorOrRefusal
    ensures { (number result.vector, result.refused) ≡ pair (at_indices s.now (shuffle s.now (number a) (number b))) }
{
    of_vector(a.i8x16_shuffle(b, *s))
}

#[unsafe(no_mangle)]
pub extern "C" fn gatulefo_value_i8x16_shuffle(a: V128, b: V128, s: V128) -> V128
    ensures { number result ≡ or_zero (at_indices (lanes 8 (number s)) (shuffle (lanes 8 (number s)) (number a) (number b))) }
{
    vector_or_zero(a.i8x16_shuffle(b, s.lanes8()))
}

#[unsafe(no_mangle)]
pub extern "C" fn gatulefo_i8x16_swizzle(a: V128, s: V128) -> V128
    ensures { number result ≡ swizzle (number a) (number s) }
{
    a.i8x16_swizzle(s)
}
