// Replace: a new vector with one lane changed; a lane number not below the lane count is refused with 4. Behind `gatulefo_value_` the vector alone, 0 where it
// is refused.
ghost use Rattle.link_answers.specs.Handed.{pair, or_zero};
ghost use Rattle.simd.specs.Number.{number};
ghost use Rattle.standard.specs.Lanes.{replace};
ghost use Rattle.standard.specs.Refusal.{at_lane};
ghost use Rattle.std.specs.Prelude.{◌≡◌};

use link_answers::answer::{VectorOrRefusal, of_vector, vector_or_zero};
use simd::{Lanes, V128};

#[unsafe(no_mangle)]
pub extern "C" fn gatulefo_i64x2_replace_lane(v: V128, lane: u8, bits: u64) -> VectorOrRefusal
    ensures { (number result.vector, result.refused) ≡ pair (at_lane 64 lane (replace 64 (number v) lane bits)) }
{
    of_vector(u64::replace(v, lane, bits))
}

#[unsafe(no_mangle)]
pub extern "C" fn gatulefo_i32x4_replace_lane(v: V128, lane: u8, bits: u32) -> VectorOrRefusal
    ensures { (number result.vector, result.refused) ≡ pair (at_lane 32 lane (replace 32 (number v) lane bits)) }
{
    of_vector(u32::replace(v, lane, bits))
}

#[unsafe(no_mangle)]
pub extern "C" fn gatulefo_i16x8_replace_lane(v: V128, lane: u8, bits: u16) -> VectorOrRefusal
    ensures { (number result.vector, result.refused) ≡ pair (at_lane 16 lane (replace 16 (number v) lane bits)) }
{
    of_vector(u16::replace(v, lane, bits))
}

#[unsafe(no_mangle)]
pub extern "C" fn gatulefo_i8x16_replace_lane(v: V128, lane: u8, bits: u8) -> VectorOrRefusal
    ensures { (number result.vector, result.refused) ≡ pair (at_lane 8 lane (replace 8 (number v) lane bits)) }
{
    of_vector(u8::replace(v, lane, bits))
}

#[unsafe(no_mangle)]
pub extern "C" fn gatulefo_f64x2_replace_lane(v: V128, lane: u8, bits: u64) -> VectorOrRefusal
    ensures { (number result.vector, result.refused) ≡ pair (at_lane 64 lane (replace 64 (number v) lane bits)) }
{
    of_vector(u64::replace(v, lane, bits))
}

#[unsafe(no_mangle)]
pub extern "C" fn gatulefo_f32x4_replace_lane(v: V128, lane: u8, bits: u32) -> VectorOrRefusal
    ensures { (number result.vector, result.refused) ≡ pair (at_lane 32 lane (replace 32 (number v) lane bits)) }
{
    of_vector(u32::replace(v, lane, bits))
}

#[unsafe(no_mangle)]
pub extern "C" fn gatulefo_value_i64x2_replace_lane(v: V128, lane: u8, bits: u64) -> V128
    ensures { number result ≡ or_zero (at_lane 64 lane (replace 64 (number v) lane bits)) }
{
    vector_or_zero(u64::replace(v, lane, bits))
}

#[unsafe(no_mangle)]
pub extern "C" fn gatulefo_value_i32x4_replace_lane(v: V128, lane: u8, bits: u32) -> V128
    ensures { number result ≡ or_zero (at_lane 32 lane (replace 32 (number v) lane bits)) }
{
    vector_or_zero(u32::replace(v, lane, bits))
}

#[unsafe(no_mangle)]
pub extern "C" fn gatulefo_value_i16x8_replace_lane(v: V128, lane: u8, bits: u16) -> V128
    ensures { number result ≡ or_zero (at_lane 16 lane (replace 16 (number v) lane bits)) }
{
    vector_or_zero(u16::replace(v, lane, bits))
}

#[unsafe(no_mangle)]
pub extern "C" fn gatulefo_value_i8x16_replace_lane(v: V128, lane: u8, bits: u8) -> V128
    ensures { number result ≡ or_zero (at_lane 8 lane (replace 8 (number v) lane bits)) }
{
    vector_or_zero(u8::replace(v, lane, bits))
}

#[unsafe(no_mangle)]
pub extern "C" fn gatulefo_value_f64x2_replace_lane(v: V128, lane: u8, bits: u64) -> V128
    ensures { number result ≡ or_zero (at_lane 64 lane (replace 64 (number v) lane bits)) }
{
    vector_or_zero(u64::replace(v, lane, bits))
}

#[unsafe(no_mangle)]
pub extern "C" fn gatulefo_value_f32x4_replace_lane(v: V128, lane: u8, bits: u32) -> V128
    ensures { number result ≡ or_zero (at_lane 32 lane (replace 32 (number v) lane bits)) }
{
    vector_or_zero(u32::replace(v, lane, bits))
}
