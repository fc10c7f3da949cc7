// Extract: the lane at a number below the lane count; any other number is refused with 4.
ghost use Rattle.link_answers.specs.Handed.{pair};
ghost use Rattle.simd.specs.Number.{number};
ghost use Rattle.standard.specs.Integer.{extend_s};
ghost use Rattle.standard.specs.Lanes.{extract};
ghost use Rattle.standard.specs.Refusal.{at_lane};
ghost use Rattle.std.specs.Prelude.{◌≡◌};

use link_answers::answer::{BitsOrRefusal, of_i32, of_i64, of_u32};
use simd::V128;

#[unsafe(no_mangle)]
pub extern "C" fn gatulefo_i64x2_extract_lane(v: V128, lane: u8) -> BitsOrRefusal
    ensures { (result.bits, result.refused) ≡ pair (at_lane 64 lane (extract 64 (number v) lane)) }
{
    of_i64(v.i64x2_extract_lane(lane))
}

#[unsafe(no_mangle)]
pub extern "C" fn gatulefo_i32x4_extract_lane(v: V128, lane: u8) -> BitsOrRefusal
    ensures { (result.bits, result.refused) ≡ pair (at_lane 32 lane (extract 32 (number v) lane)) }
{
    of_i32(v.i32x4_extract_lane(lane))
}

#[unsafe(no_mangle)]
pub extern "C" fn gatulefo_f64x2_extract_lane(v: V128, lane: u8) -> BitsOrRefusal
    ensures { (result.bits, result.refused) ≡ pair (at_lane 64 lane (extract 64 (number v) lane)) }
{
    of_i64(v.i64x2_extract_lane(lane))
}

#[unsafe(no_mangle)]
pub extern "C" fn gatulefo_f32x4_extract_lane(v: V128, lane: u8) -> BitsOrRefusal
    ensures { (result.bits, result.refused) ≡ pair (at_lane 32 lane (extract 32 (number v) lane)) }
{
    of_i32(v.i32x4_extract_lane(lane))
}

#[unsafe(no_mangle)]
pub extern "C" fn gatulefo_i8x16_extract_lane_s(v: V128, lane: u8) -> BitsOrRefusal
    ensures { (result.bits, result.refused) ≡ pair (at_lane 8 lane (extend_s 8 32 (extract 8 (number v) lane))) }
{
    of_i32(v.i8x16_extract_lane_s(lane))
}

#[unsafe(no_mangle)]
pub extern "C" fn gatulefo_i8x16_extract_lane_u(v: V128, lane: u8) -> BitsOrRefusal
    ensures { (result.bits, result.refused) ≡ pair (at_lane 8 lane (extract 8 (number v) lane)) }
{
    of_u32(v.i8x16_extract_lane_u(lane))
}

#[unsafe(no_mangle)]
pub extern "C" fn gatulefo_i16x8_extract_lane_s(v: V128, lane: u8) -> BitsOrRefusal
    ensures { (result.bits, result.refused) ≡ pair (at_lane 16 lane (extend_s 16 32 (extract 16 (number v) lane))) }
{
    of_i32(v.i16x8_extract_lane_s(lane))
}

#[unsafe(no_mangle)]
pub extern "C" fn gatulefo_i16x8_extract_lane_u(v: V128, lane: u8) -> BitsOrRefusal
    ensures { (result.bits, result.refused) ≡ pair (at_lane 16 lane (extract 16 (number v) lane)) }
{
    of_u32(v.i16x8_extract_lane_u(lane))
}
