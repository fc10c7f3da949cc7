// Floats to lanes of 32 bits: cut toward zero, capped to both ends of the range, and 0 of a NaN.
#![tactic(auto)]

ghost use Rattle.std.specs.Prelude.{◌≡◌, ◌%◌, ◌^◌, map};
ghost use Rattle.std.specs.Float.{binary32, binary64};
ghost use Rattle.standard.specs.Convert.{trunc_sat_u, trunc_sat_s};

use lane_float_parts::side_by_side;
use lane_float_value::pick;

// "If z is a NaN, then return 0."
const OF_NAN: u32 = 0;

// With no branch, so that lanes go side by side: the digits stand at the top of 32 bits and are moved down by 158 less the exponent's field, of which the
// last five bits tell all where the answer is taken. A pattern with its sign set is above the infinity's, as a NaN's is.
fn trunc_sat_u32(bits: u32) -> u32
    ensures { result ≡ trunc_sat_u binary32 bits }
{
    let down = (542 - bits / 0x80_0000) % 32;
    let part = ((bits % 0x80_0000) * 256 + 0x8000_0000) >> down;
    let capped = pick(0x4F80_0000 <= bits, u32::MAX, part);
    pick((bits < 0x3F80_0000) | (0x7F80_0000 < bits), OF_NAN, capped)
}

// The same of the magnitude, and the sign by all ones or none: a number is turned to its negative by an exclusive-or with them and a difference.
fn trunc_sat_s32(bits: u32) -> u32
    ensures { result ≡ trunc_sat_s binary32 bits }
{
    let size = bits % 0x8000_0000;
    let down = (542 - bits / 0x80_0000) % 32;
    let part = ((bits % 0x80_0000) * 256 + 0x8000_0000) >> down;
    let ones = pick(0x8000_0000 <= bits, u32::MAX, 0);
    let turned = std::num::wrapping_sub_u32(part ^ ones, ones);
    let capped = pick(0x4F00_0000 <= size, 0x7FFF_FFFF ^ ones, turned);
    pick((size < 0x3F80_0000) | (0x7F80_0000 < size), OF_NAN, capped)
}

// Four lanes side by side.
pub fn trunc_sat_u32x4(a: [u32; 4]) -> [u32; 4]
    ensures { result ≡ map (trunc_sat_u binary32) a }
{
    side_by_side(trunc_sat_u32, a)
}

pub fn trunc_sat_s32x4(a: [u32; 4]) -> [u32; 4]
    ensures { result ≡ map (trunc_sat_s binary32) a }
{
    side_by_side(trunc_sat_s32, a)
}

// The whole part of the magnitude.
fn part64(bits: u64) -> u32
    ensures { result ≡ trunc_sat_u binary64 (bits % 2 ^ 63) }
{
    let size = bits % 0x8000_0000_0000_0000;
    if 0x7FF0_0000_0000_0000 < size {
        return OF_NAN;
    }
    let field = size / 0x10_0000_0000_0000;
    if field < 1023 {
        return 0;
    }
    if 1054 < field {
        return u32::MAX;
    }
    let digits = bits % 0x10_0000_0000_0000 + 0x10_0000_0000_0000;
    (digits >> (1075 - field)) as u32
}

// The sign first: half of all patterns have it set.
pub fn trunc_sat_u64(bits: u64) -> u32
    ensures { result ≡ trunc_sat_u binary64 bits }
{
    if 0x8000_0000_0000_0000 <= bits {
        0
    } else {
        part64(bits)
    }
}

// By the upper half, which has the sign, the field and the first digits: it is compared with numbers of 32 bits.
pub fn trunc_sat_s64(bits: u64) -> u32
    ensures { result ≡ trunc_sat_s binary64 bits }
{
    let high = (bits / 0x1_0000_0000) as u32;
    let size = high % 0x8000_0000;
    if size < 0x3FF0_0000 {
        return 0;
    }
    let end = pick(0x8000_0000 <= high, 0x8000_0000, 0x7FFF_FFFF);
    if 0x7FF0_0000 <= size {
        return pick(
            0x7FF0_0000_0000_0000 < bits % 0x8000_0000_0000_0000,
            OF_NAN,
            end,
        );
    }
    if 0x41E0_0000 <= size {
        return end;
    }
    let digits = bits % 0x10_0000_0000_0000 + 0x10_0000_0000_0000;
    let part = (digits >> (1075 - (size / 0x10_0000) as u64)) as u32;
    pick(0x8000_0000 <= high, u32::MAX - part + 1, part)
}
