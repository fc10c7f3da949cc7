// Extract: the lane at a number below the lane count; any other number is refused with 4.
ghost use Rattle.std.specs.Prelude.{◌≡◌};
ghost use Rattle.standard.specs.Integer.{extend_s};
ghost use Rattle.standard.specs.Lanes.{extract};
ghost use Rattle.standard.specs.Refusal.{at_lane};
ghost use Rattle.simd.specs.Answers.{i32_answer, u32_answer, i64_answer, f32_answer, f64_answer};
ghost use Rattle.simd.specs.Number.{number};

use crate::V128;
use lane_float::{F32, F64};
use lane_integer::reinterpret::{signed32, signed64};
use lane_wide::{wide8, wide16};
use standard_refusal::{Refusal, lane_below};

impl V128 {
    pub fn i64x2_extract_lane(self, lane: u8) -> Result<i64, Refusal>
        ensures { i64_answer result ≡ at_lane 64 lane (extract 64 (number self) lane) }
    {
        lane_below(lane, 2)?;
        Ok(signed64(self.lane64(lane)))
    }

    pub fn i32x4_extract_lane(self, lane: u8) -> Result<i32, Refusal>
        ensures { i32_answer result ≡ at_lane 32 lane (extract 32 (number self) lane) }
    {
        lane_below(lane, 4)?;
        Ok(signed32(self.lane32(lane)))
    }

    pub fn f64x2_extract_lane(self, lane: u8) -> Result<F64, Refusal>
        ensures { f64_answer result ≡ at_lane 64 lane (extract 64 (number self) lane) }
    {
        lane_below(lane, 2)?;
        Ok(F64::from_bits(self.lane64(lane)))
    }

    pub fn f32x4_extract_lane(self, lane: u8) -> Result<F32, Refusal>
        ensures { f32_answer result ≡ at_lane 32 lane (extract 32 (number self) lane) }
    {
        lane_below(lane, 4)?;
        Ok(F32::from_bits(self.lane32(lane)))
    }

    pub fn i8x16_extract_lane_s(self, lane: u8) -> Result<i32, Refusal>
        ensures { i32_answer result ≡ at_lane 8 lane (extend_s 8 32 (extract 8 (number self) lane)) }
    {
        lane_below(lane, 16)?;
        Ok(wide8(self.lane8(lane)))
    }

    pub fn i8x16_extract_lane_u(self, lane: u8) -> Result<u32, Refusal>
        ensures { u32_answer result ≡ at_lane 8 lane (extract 8 (number self) lane) }
    {
        lane_below(lane, 16)?;
        Ok(self.lane8(lane) as u32)
    }

    pub fn i16x8_extract_lane_s(self, lane: u8) -> Result<i32, Refusal>
        ensures { i32_answer result ≡ at_lane 16 lane (extend_s 16 32 (extract 16 (number self) lane)) }
    {
        lane_below(lane, 8)?;
        Ok(wide16(self.lane16(lane)))
    }

    pub fn i16x8_extract_lane_u(self, lane: u8) -> Result<u32, Refusal>
        ensures { u32_answer result ≡ at_lane 16 lane (extract 16 (number self) lane) }
    {
        lane_below(lane, 8)?;
        Ok(self.lane16(lane) as u32)
    }
}
