// Loads (document 01, "Memory"), under the Rust's names. The two forms of each instruction, at pointer and offset and at an address, differ in the effective
// address alone and share one private function. A lane load tests the lane, 4, before the bounds, 7. With each 7 goes the shortfall (document 02,
// order 9).
#![tactic(auto)]

ghost use Rattle.std.specs.Prelude.{◌≡◌, ◌+◌};
ghost use Rattle.standard.specs.Integer.{extend_s, extend_u};
ghost use Rattle.standard.specs.Memory.{load, load_splat, load_widen, load_lane};
ghost use Rattle.memory_bounds.specs.Bounds.{effective};
ghost use Rattle.simd.specs.Number.{number};
ghost use Rattle.memory_loads.specs.LoadAnswer.{load_answer};

use memory_access::{AccessError, Effective, Halves, fetch};
use simd::{Lanes, V128};
use standard_refusal::lane_below;

fn load_from(memory: &[u8], ea: Effective) -> Result<V128, AccessError>
    ensures { load_answer result ≡ load 16 memory.now (effective ea) }
{
    let Halves { lo, hi } = fetch(memory, ea)?;
    Ok(V128 { lo, hi })
}

// "clear the remaining lanes"
fn zero32_from(memory: &[u8], ea: Effective) -> Result<V128, AccessError>
    ensures { load_answer result ≡ load 4 memory.now (effective ea) }
{
    let lane: u32 = fetch(memory, ea)?;
    Ok(V128 {
        lo: lane as u64,
        hi: 0,
    })
}

fn zero64_from(memory: &[u8], ea: Effective) -> Result<V128, AccessError>
    ensures { load_answer result ≡ load 8 memory.now (effective ea) }
{
    Ok(V128 {
        lo: fetch(memory, ea)?,
        hi: 0,
    })
}

#[tactic(auto, using(memory_access::proofs::Shapes::splat_maps))]
fn splat8_from(memory: &[u8], ea: Effective) -> Result<V128, AccessError>
    ensures { load_answer result ≡ load_splat 8 memory.now (effective ea) }
{
    Ok(u8::splat(fetch(memory, ea)?))
}

#[tactic(auto, using(memory_access::proofs::Shapes::splat_maps))]
fn splat16_from(memory: &[u8], ea: Effective) -> Result<V128, AccessError>
    ensures { load_answer result ≡ load_splat 16 memory.now (effective ea) }
{
    Ok(u16::splat(fetch(memory, ea)?))
}

#[tactic(auto, using(memory_access::proofs::Shapes::splat_maps))]
fn splat32_from(memory: &[u8], ea: Effective) -> Result<V128, AccessError>
    ensures { load_answer result ≡ load_splat 32 memory.now (effective ea) }
{
    Ok(u32::splat(fetch(memory, ea)?))
}

#[tactic(auto, using(memory_access::proofs::Shapes::splat_maps))]
fn splat64_from(memory: &[u8], ea: Effective) -> Result<V128, AccessError>
    ensures { load_answer result ≡ load_splat 64 memory.now (effective ea) }
{
    Ok(u64::splat(fetch(memory, ea)?))
}

// "read 8 bytes and widen". Six of one line each: a function as a parameter would need a clause over all functions, and six callers that name theirs.
#[tactic(auto, using(memory_access::proofs::Shapes::widen_maps))]
fn widen8x8_s_from(memory: &[u8], ea: Effective) -> Result<V128, AccessError>
    ensures { load_answer result ≡ load_widen extend_s 8 memory.now (effective ea) }
{
    Ok(V128::v128_widen8x8_s(fetch(memory, ea)?))
}

#[tactic(auto, using(memory_access::proofs::Shapes::widen_maps))]
fn widen8x8_u_from(memory: &[u8], ea: Effective) -> Result<V128, AccessError>
    ensures { load_answer result ≡ load_widen extend_u 8 memory.now (effective ea) }
{
    Ok(V128::v128_widen8x8_u(fetch(memory, ea)?))
}

#[tactic(auto, using(memory_access::proofs::Shapes::widen_maps))]
fn widen16x4_s_from(memory: &[u8], ea: Effective) -> Result<V128, AccessError>
    ensures { load_answer result ≡ load_widen extend_s 16 memory.now (effective ea) }
{
    Ok(V128::v128_widen16x4_s(fetch(memory, ea)?))
}

#[tactic(auto, using(memory_access::proofs::Shapes::widen_maps))]
fn widen16x4_u_from(memory: &[u8], ea: Effective) -> Result<V128, AccessError>
    ensures { load_answer result ≡ load_widen extend_u 16 memory.now (effective ea) }
{
    Ok(V128::v128_widen16x4_u(fetch(memory, ea)?))
}

#[tactic(auto, using(memory_access::proofs::Shapes::widen_maps))]
fn widen32x2_s_from(memory: &[u8], ea: Effective) -> Result<V128, AccessError>
    ensures { load_answer result ≡ load_widen extend_s 32 memory.now (effective ea) }
{
    Ok(V128::v128_widen32x2_s(fetch(memory, ea)?))
}

#[tactic(auto, using(memory_access::proofs::Shapes::widen_maps))]
fn widen32x2_u_from(memory: &[u8], ea: Effective) -> Result<V128, AccessError>
    ensures { load_answer result ≡ load_widen extend_u 32 memory.now (effective ea) }
{
    Ok(V128::v128_widen32x2_u(fetch(memory, ea)?))
}

// "a lane load or store tests 4 before 7"
#[tactic(auto, using(memory_access::proofs::Shapes::lane_load_maps, memory_access::proofs::Shapes::no_lane_load))]
fn lane8_from(memory: &[u8], ea: Effective, x: V128, lane: u8) -> Result<V128, AccessError>
    ensures { load_answer result ≡ load_lane 8 (number x) lane memory.now (effective ea) }
{
    lane_below(lane, 16)?;
    Ok(u8::replace(x, lane, fetch(memory, ea)?)?)
}

#[tactic(auto, using(memory_access::proofs::Shapes::lane_load_maps, memory_access::proofs::Shapes::no_lane_load))]
fn lane16_from(memory: &[u8], ea: Effective, x: V128, lane: u8) -> Result<V128, AccessError>
    ensures { load_answer result ≡ load_lane 16 (number x) lane memory.now (effective ea) }
{
    lane_below(lane, 8)?;
    Ok(u16::replace(x, lane, fetch(memory, ea)?)?)
}

#[tactic(auto, using(memory_access::proofs::Shapes::lane_load_maps, memory_access::proofs::Shapes::no_lane_load))]
fn lane32_from(memory: &[u8], ea: Effective, x: V128, lane: u8) -> Result<V128, AccessError>
    ensures { load_answer result ≡ load_lane 32 (number x) lane memory.now (effective ea) }
{
    lane_below(lane, 4)?;
    Ok(u32::replace(x, lane, fetch(memory, ea)?)?)
}

#[tactic(auto, using(memory_access::proofs::Shapes::lane_load_maps, memory_access::proofs::Shapes::no_lane_load))]
fn lane64_from(memory: &[u8], ea: Effective, x: V128, lane: u8) -> Result<V128, AccessError>
    ensures { load_answer result ≡ load_lane 64 (number x) lane memory.now (effective ea) }
{
    lane_below(lane, 2)?;
    Ok(u64::replace(x, lane, fetch(memory, ea)?)?)
}

pub fn v128_load(memory: &[u8], ptr: u64, offset: u64) -> Result<V128, AccessError>
    ensures { load_answer result ≡ load 16 memory.now (ptr + offset) }
{
    load_from(memory, Effective::Sum(ptr, offset))
}

pub fn v128_load_at(memory: &[u8], address: usize) -> Result<V128, AccessError>
    ensures { load_answer result ≡ load 16 memory.now address }
{
    load_from(memory, Effective::Address(address))
}

pub fn v128_load32_zero(memory: &[u8], ptr: u64, offset: u64) -> Result<V128, AccessError>
    ensures { load_answer result ≡ load 4 memory.now (ptr + offset) }
{
    zero32_from(memory, Effective::Sum(ptr, offset))
}

pub fn v128_load32_zero_at(memory: &[u8], address: usize) -> Result<V128, AccessError>
    ensures { load_answer result ≡ load 4 memory.now address }
{
    zero32_from(memory, Effective::Address(address))
}

pub fn v128_load64_zero(memory: &[u8], ptr: u64, offset: u64) -> Result<V128, AccessError>
    ensures { load_answer result ≡ load 8 memory.now (ptr + offset) }
{
    zero64_from(memory, Effective::Sum(ptr, offset))
}

pub fn v128_load64_zero_at(memory: &[u8], address: usize) -> Result<V128, AccessError>
    ensures { load_answer result ≡ load 8 memory.now address }
{
    zero64_from(memory, Effective::Address(address))
}

pub fn v128_load8_splat(memory: &[u8], ptr: u64, offset: u64) -> Result<V128, AccessError>
    ensures { load_answer result ≡ load_splat 8 memory.now (ptr + offset) }
{
    splat8_from(memory, Effective::Sum(ptr, offset))
}

pub fn v128_load8_splat_at(memory: &[u8], address: usize) -> Result<V128, AccessError>
    ensures { load_answer result ≡ load_splat 8 memory.now address }
{
    splat8_from(memory, Effective::Address(address))
}

pub fn v128_load16_splat(memory: &[u8], ptr: u64, offset: u64) -> Result<V128, AccessError>
    ensures { load_answer result ≡ load_splat 16 memory.now (ptr + offset) }
{
    splat16_from(memory, Effective::Sum(ptr, offset))
}

pub fn v128_load16_splat_at(memory: &[u8], address: usize) -> Result<V128, AccessError>
    ensures { load_answer result ≡ load_splat 16 memory.now address }
{
    splat16_from(memory, Effective::Address(address))
}

pub fn v128_load32_splat(memory: &[u8], ptr: u64, offset: u64) -> Result<V128, AccessError>
    ensures { load_answer result ≡ load_splat 32 memory.now (ptr + offset) }
{
    splat32_from(memory, Effective::Sum(ptr, offset))
}

pub fn v128_load32_splat_at(memory: &[u8], address: usize) -> Result<V128, AccessError>
    ensures { load_answer result ≡ load_splat 32 memory.now address }
{
    splat32_from(memory, Effective::Address(address))
}

pub fn v128_load64_splat(memory: &[u8], ptr: u64, offset: u64) -> Result<V128, AccessError>
    ensures { load_answer result ≡ load_splat 64 memory.now (ptr + offset) }
{
    splat64_from(memory, Effective::Sum(ptr, offset))
}

pub fn v128_load64_splat_at(memory: &[u8], address: usize) -> Result<V128, AccessError>
    ensures { load_answer result ≡ load_splat 64 memory.now address }
{
    splat64_from(memory, Effective::Address(address))
}

pub fn v128_load8x8_s(memory: &[u8], ptr: u64, offset: u64) -> Result<V128, AccessError>
    ensures { load_answer result ≡ load_widen extend_s 8 memory.now (ptr + offset) }
{
    widen8x8_s_from(memory, Effective::Sum(ptr, offset))
}

pub fn v128_load8x8_s_at(memory: &[u8], address: usize) -> Result<V128, AccessError>
    ensures { load_answer result ≡ load_widen extend_s 8 memory.now address }
{
    widen8x8_s_from(memory, Effective::Address(address))
}

pub fn v128_load8x8_u(memory: &[u8], ptr: u64, offset: u64) -> Result<V128, AccessError>
    ensures { load_answer result ≡ load_widen extend_u 8 memory.now (ptr + offset) }
{
    widen8x8_u_from(memory, Effective::Sum(ptr, offset))
}

pub fn v128_load8x8_u_at(memory: &[u8], address: usize) -> Result<V128, AccessError>
    ensures { load_answer result ≡ load_widen extend_u 8 memory.now address }
{
    widen8x8_u_from(memory, Effective::Address(address))
}

pub fn v128_load16x4_s(memory: &[u8], ptr: u64, offset: u64) -> Result<V128, AccessError>
    ensures { load_answer result ≡ load_widen extend_s 16 memory.now (ptr + offset) }
{
    widen16x4_s_from(memory, Effective::Sum(ptr, offset))
}

pub fn v128_load16x4_s_at(memory: &[u8], address: usize) -> Result<V128, AccessError>
    ensures { load_answer result ≡ load_widen extend_s 16 memory.now address }
{
    widen16x4_s_from(memory, Effective::Address(address))
}

pub fn v128_load16x4_u(memory: &[u8], ptr: u64, offset: u64) -> Result<V128, AccessError>
    ensures { load_answer result ≡ load_widen extend_u 16 memory.now (ptr + offset) }
{
    widen16x4_u_from(memory, Effective::Sum(ptr, offset))
}

pub fn v128_load16x4_u_at(memory: &[u8], address: usize) -> Result<V128, AccessError>
    ensures { load_answer result ≡ load_widen extend_u 16 memory.now address }
{
    widen16x4_u_from(memory, Effective::Address(address))
}

pub fn v128_load32x2_s(memory: &[u8], ptr: u64, offset: u64) -> Result<V128, AccessError>
    ensures { load_answer result ≡ load_widen extend_s 32 memory.now (ptr + offset) }
{
    widen32x2_s_from(memory, Effective::Sum(ptr, offset))
}

pub fn v128_load32x2_s_at(memory: &[u8], address: usize) -> Result<V128, AccessError>
    ensures { load_answer result ≡ load_widen extend_s 32 memory.now address }
{
    widen32x2_s_from(memory, Effective::Address(address))
}

pub fn v128_load32x2_u(memory: &[u8], ptr: u64, offset: u64) -> Result<V128, AccessError>
    ensures { load_answer result ≡ load_widen extend_u 32 memory.now (ptr + offset) }
{
    widen32x2_u_from(memory, Effective::Sum(ptr, offset))
}

pub fn v128_load32x2_u_at(memory: &[u8], address: usize) -> Result<V128, AccessError>
    ensures { load_answer result ≡ load_widen extend_u 32 memory.now address }
{
    widen32x2_u_from(memory, Effective::Address(address))
}

pub fn v128_load8_lane(
    memory: &[u8],
    ptr: u64,
    offset: u64,
    x: V128,
    lane: u8,
) -> Result<V128, AccessError>
    ensures { load_answer result ≡ load_lane 8 (number x) lane memory.now (ptr + offset) }
{
    lane8_from(memory, Effective::Sum(ptr, offset), x, lane)
}

pub fn v128_load8_lane_at(
    memory: &[u8],
    address: usize,
    x: V128,
    lane: u8,
) -> Result<V128, AccessError>
    ensures { load_answer result ≡ load_lane 8 (number x) lane memory.now address }
{
    lane8_from(memory, Effective::Address(address), x, lane)
}

pub fn v128_load16_lane(
    memory: &[u8],
    ptr: u64,
    offset: u64,
    x: V128,
    lane: u8,
) -> Result<V128, AccessError>
    ensures { load_answer result ≡ load_lane 16 (number x) lane memory.now (ptr + offset) }
{
    lane16_from(memory, Effective::Sum(ptr, offset), x, lane)
}

pub fn v128_load16_lane_at(
    memory: &[u8],
    address: usize,
    x: V128,
    lane: u8,
) -> Result<V128, AccessError>
    ensures { load_answer result ≡ load_lane 16 (number x) lane memory.now address }
{
    lane16_from(memory, Effective::Address(address), x, lane)
}

pub fn v128_load32_lane(
    memory: &[u8],
    ptr: u64,
    offset: u64,
    x: V128,
    lane: u8,
) -> Result<V128, AccessError>
    ensures { load_answer result ≡ load_lane 32 (number x) lane memory.now (ptr + offset) }
{
    lane32_from(memory, Effective::Sum(ptr, offset), x, lane)
}

pub fn v128_load32_lane_at(
    memory: &[u8],
    address: usize,
    x: V128,
    lane: u8,
) -> Result<V128, AccessError>
    ensures { load_answer result ≡ load_lane 32 (number x) lane memory.now address }
{
    lane32_from(memory, Effective::Address(address), x, lane)
}

pub fn v128_load64_lane(
    memory: &[u8],
    ptr: u64,
    offset: u64,
    x: V128,
    lane: u8,
) -> Result<V128, AccessError>
    ensures { load_answer result ≡ load_lane 64 (number x) lane memory.now (ptr + offset) }
{
    lane64_from(memory, Effective::Sum(ptr, offset), x, lane)
}

pub fn v128_load64_lane_at(
    memory: &[u8],
    address: usize,
    x: V128,
    lane: u8,
) -> Result<V128, AccessError>
    ensures { load_answer result ≡ load_lane 64 (number x) lane memory.now address }
{
    lane64_from(memory, Effective::Address(address), x, lane)
}
