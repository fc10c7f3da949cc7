// Stores. A lane store tests the lane, 4, before the bounds, 7, and with a 7 comes back how far past the end the access runs.
// Made by link/exports.
ghost use Rattle.link_answers.specs.Handed.{store_numbers};
ghost use Rattle.simd.specs.Number.{number};
ghost use Rattle.standard.specs.Memory.{store, store_lane, stored};
ghost use Rattle.std.specs.Prelude.{◌≡◌, ◌+◌};

use link_answers::answer::{Stored, of_store};
use simd::V128;

#[unsafe(no_mangle)]
pub extern "C" fn gatulefo_v128_store(
    memory: &mut [u8],
    ptr: u64,
    offset: u64,
    value: V128,
) -> Stored
    ensures { (result.shortfall, result.refused, memory.new) ≡ store_numbers (stored (store 16 (number value) memory.old (ptr + offset)) memory.old) }
{
    of_store(memory_stores::v128_store(memory, ptr, offset, value))
}

#[unsafe(no_mangle)]
pub extern "C" fn gatulefo_v128_store_at(memory: &mut [u8], address: usize, value: V128) -> Stored
    ensures { (result.shortfall, result.refused, memory.new) ≡ store_numbers (stored (store 16 (number value) memory.old address) memory.old) }
{
    of_store(memory_stores::v128_store_at(memory, address, value))
}

#[unsafe(no_mangle)]
pub extern "C" fn gatulefo_v128_store8_lane(
    memory: &mut [u8],
    ptr: u64,
    offset: u64,
    value: V128,
    lane: u8,
) -> Stored
    ensures { (result.shortfall, result.refused, memory.new) ≡ store_numbers (stored (store_lane 8 (number value) lane memory.old (ptr + offset)) memory.old) }
{
    of_store(memory_stores::v128_store8_lane(memory, ptr, offset, value, lane))
}

#[unsafe(no_mangle)]
pub extern "C" fn gatulefo_v128_store8_lane_at(
    memory: &mut [u8],
    address: usize,
    value: V128,
    lane: u8,
) -> Stored
    ensures { (result.shortfall, result.refused, memory.new) ≡ store_numbers (stored (store_lane 8 (number value) lane memory.old address) memory.old) }
{
    of_store(memory_stores::v128_store8_lane_at(memory, address, value, lane))
}

#[unsafe(no_mangle)]
pub extern "C" fn gatulefo_v128_store16_lane(
    memory: &mut [u8],
    ptr: u64,
    offset: u64,
    value: V128,
    lane: u8,
) -> Stored
    ensures { (result.shortfall, result.refused, memory.new) ≡ store_numbers (stored (store_lane 16 (number value) lane memory.old (ptr + offset)) memory.old) }
{
    of_store(memory_stores::v128_store16_lane(memory, ptr, offset, value, lane))
}

#[unsafe(no_mangle)]
pub extern "C" fn gatulefo_v128_store16_lane_at(
    memory: &mut [u8],
    address: usize,
    value: V128,
    lane: u8,
) -> Stored
    ensures { (result.shortfall, result.refused, memory.new) ≡ store_numbers (stored (store_lane 16 (number value) lane memory.old address) memory.old) }
{
    of_store(memory_stores::v128_store16_lane_at(memory, address, value, lane))
}

#[unsafe(no_mangle)]
pub extern "C" fn gatulefo_v128_store32_lane(
    memory: &mut [u8],
    ptr: u64,
    offset: u64,
    value: V128,
    lane: u8,
) -> Stored
    ensures { (result.shortfall, result.refused, memory.new) ≡ store_numbers (stored (store_lane 32 (number value) lane memory.old (ptr + offset)) memory.old) }
{
    of_store(memory_stores::v128_store32_lane(memory, ptr, offset, value, lane))
}

#[unsafe(no_mangle)]
pub extern "C" fn gatulefo_v128_store32_lane_at(
    memory: &mut [u8],
    address: usize,
    value: V128,
    lane: u8,
) -> Stored
    ensures { (result.shortfall, result.refused, memory.new) ≡ store_numbers (stored (store_lane 32 (number value) lane memory.old address) memory.old) }
{
    of_store(memory_stores::v128_store32_lane_at(memory, address, value, lane))
}

#[unsafe(no_mangle)]
pub extern "C" fn gatulefo_v128_store64_lane(
    memory: &mut [u8],
    ptr: u64,
    offset: u64,
    value: V128,
    lane: u8,
) -> Stored
    ensures { (result.shortfall, result.refused, memory.new) ≡ store_numbers (stored (store_lane 64 (number value) lane memory.old (ptr + offset)) memory.old) }
{
    of_store(memory_stores::v128_store64_lane(memory, ptr, offset, value, lane))
}

#[unsafe(no_mangle)]
pub extern "C" fn gatulefo_v128_store64_lane_at(
    memory: &mut [u8],
    address: usize,
    value: V128,
    lane: u8,
) -> Stored
    ensures { (result.shortfall, result.refused, memory.new) ≡ store_numbers (stored (store_lane 64 (number value) lane memory.old address) memory.old) }
{
    of_store(memory_stores::v128_store64_lane_at(memory, address, value, lane))
}
