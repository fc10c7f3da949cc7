// Stores (document 01, "Memory"), under the Rust's names. The two forms of each instruction, at pointer and offset and at an address, differ in the effective
// address alone and share one private function. A lane store tests the lane, 4, before the bounds, 7. With each 7 goes the shortfall (document 02,
// order 9).
#![tactic(auto)]

ghost use Rattle.std.specs.Prelude.{◌≡◌, ◌+◌};
ghost use Rattle.standard.specs.Memory.{store, store_lane, stored};
ghost use Rattle.memory_bounds.specs.Bounds.{effective};
ghost use Rattle.memory_access.specs.AccessError.{store_answer};
ghost use Rattle.simd.specs.Number.{number};

use memory_access::{AccessError, Effective, Halves, put};
use simd::{Lanes, V128};
use standard_refusal::lane_below;

fn store_to(memory: &mut [u8], ea: Effective, value: V128) -> Result<(), AccessError>
    ensures { store_answer result memory.new ≡ stored (store 16 (number value) memory.old (effective ea)) memory.old }
{
    let V128 { lo, hi } = value;
    Ok(put(memory, ea, Halves { lo, hi })?)
}

#[tactic(auto, using(memory_access::proofs::Shapes::lane_store_is, memory_access::proofs::Shapes::no_lane_store))]
fn lane8_to(memory: &mut [u8], ea: Effective, value: V128, lane: u8) -> Result<(), AccessError>
    ensures { store_answer result memory.new ≡ stored (store_lane 8 (number value) lane memory.old (effective ea)) memory.old }
{
    lane_below(lane, 16)?;
    Ok(put(memory, ea, u8::lane(value, lane))?)
}

#[tactic(auto, using(memory_access::proofs::Shapes::lane_store_is, memory_access::proofs::Shapes::no_lane_store))]
fn lane16_to(memory: &mut [u8], ea: Effective, value: V128, lane: u8) -> Result<(), AccessError>
    ensures { store_answer result memory.new ≡ stored (store_lane 16 (number value) lane memory.old (effective ea)) memory.old }
{
    lane_below(lane, 8)?;
    Ok(put(memory, ea, u16::lane(value, lane))?)
}

#[tactic(auto, using(memory_access::proofs::Shapes::lane_store_is, memory_access::proofs::Shapes::no_lane_store))]
fn lane32_to(memory: &mut [u8], ea: Effective, value: V128, lane: u8) -> Result<(), AccessError>
    ensures { store_answer result memory.new ≡ stored (store_lane 32 (number value) lane memory.old (effective ea)) memory.old }
{
    lane_below(lane, 4)?;
    Ok(put(memory, ea, u32::lane(value, lane))?)
}

#[tactic(auto, using(memory_access::proofs::Shapes::lane_store_is, memory_access::proofs::Shapes::no_lane_store))]
fn lane64_to(memory: &mut [u8], ea: Effective, value: V128, lane: u8) -> Result<(), AccessError>
    ensures { store_answer result memory.new ≡ stored (store_lane 64 (number value) lane memory.old (effective ea)) memory.old }
{
    lane_below(lane, 2)?;
    Ok(put(memory, ea, u64::lane(value, lane))?)
}

pub fn v128_store(memory: &mut [u8], ptr: u64, offset: u64, value: V128) -> Result<(), AccessError>
    ensures { store_answer result memory.new ≡ stored (store 16 (number value) memory.old (ptr + offset)) memory.old }
{
    store_to(memory, Effective::Sum(ptr, offset), value)
}

pub fn v128_store_at(memory: &mut [u8], address: usize, value: V128) -> Result<(), AccessError>
    ensures { store_answer result memory.new ≡ stored (store 16 (number value) memory.old address) memory.old }
{
    store_to(memory, Effective::Address(address), value)
}

pub fn v128_store8_lane(
    memory: &mut [u8],
    ptr: u64,
    offset: u64,
    value: V128,
    lane: u8,
) -> Result<(), AccessError>
    ensures { store_answer result memory.new ≡ stored (store_lane 8 (number value) lane memory.old (ptr + offset)) memory.old }
{
    lane8_to(memory, Effective::Sum(ptr, offset), value, lane)
}

pub fn v128_store8_lane_at(
    memory: &mut [u8],
    address: usize,
    value: V128,
    lane: u8,
) -> Result<(), AccessError>
    ensures { store_answer result memory.new ≡ stored (store_lane 8 (number value) lane memory.old address) memory.old }
{
    lane8_to(memory, Effective::Address(address), value, lane)
}

pub fn v128_store16_lane(
    memory: &mut [u8],
    ptr: u64,
    offset: u64,
    value: V128,
    lane: u8,
) -> Result<(), AccessError>
    ensures { store_answer result memory.new ≡ stored (store_lane 16 (number value) lane memory.old (ptr + offset)) memory.old }
{
    lane16_to(memory, Effective::Sum(ptr, offset), value, lane)
}

pub fn v128_store16_lane_at(
    memory: &mut [u8],
    address: usize,
    value: V128,
    lane: u8,
) -> Result<(), AccessError>
    ensures { store_answer result memory.new ≡ stored (store_lane 16 (number value) lane memory.old address) memory.old }
{
    lane16_to(memory, Effective::Address(address), value, lane)
}

pub fn v128_store32_lane(
    memory: &mut [u8],
    ptr: u64,
    offset: u64,
    value: V128,
    lane: u8,
) -> Result<(), AccessError>
    ensures { store_answer result memory.new ≡ stored (store_lane 32 (number value) lane memory.old (ptr + offset)) memory.old }
{
    lane32_to(memory, Effective::Sum(ptr, offset), value, lane)
}

pub fn v128_store32_lane_at(
    memory: &mut [u8],
    address: usize,
    value: V128,
    lane: u8,
) -> Result<(), AccessError>
    ensures { store_answer result memory.new ≡ stored (store_lane 32 (number value) lane memory.old address) memory.old }
{
    lane32_to(memory, Effective::Address(address), value, lane)
}

pub fn v128_store64_lane(
    memory: &mut [u8],
    ptr: u64,
    offset: u64,
    value: V128,
    lane: u8,
) -> Result<(), AccessError>
    ensures { store_answer result memory.new ≡ stored (store_lane 64 (number value) lane memory.old (ptr + offset)) memory.old }
{
    lane64_to(memory, Effective::Sum(ptr, offset), value, lane)
}

pub fn v128_store64_lane_at(
    memory: &mut [u8],
    address: usize,
    value: V128,
    lane: u8,
) -> Result<(), AccessError>
    ensures { store_answer result memory.new ≡ stored (store_lane 64 (number value) lane memory.old address) memory.old }
{
    lane64_to(memory, Effective::Address(address), value, lane)
}
