// Loads. A lane load tests the lane, 4, before the bounds, 7, and with a 7 comes back how far past the end the access runs.
// Made by link/exports.
ghost use Rattle.link_answers.specs.Handed.{access_numbers};
ghost use Rattle.simd.specs.Number.{number};
ghost use Rattle.standard.specs.Integer.{extend_s, extend_u};
ghost use Rattle.standard.specs.Memory.{load, load_splat, load_widen, load_lane};
ghost use Rattle.std.specs.Prelude.{◌≡◌, ◌+◌};

use link_answers::answer::{Loaded, of_load};
use simd::V128;

#[unsafe(no_mangle)]
pub extern "C" fn gatulefo_v128_load(memory: &[u8], ptr: u64, offset: u64) -> Loaded
    ensures { (number result.vector, result.shortfall, result.refused) ≡ access_numbers (load 16 memory.now (ptr + offset)) }
{
    of_load(memory_loads::v128_load(memory, ptr, offset))
}

#[unsafe(no_mangle)]
pub extern "C" fn gatulefo_v128_load_at(memory: &[u8], address: usize) -> Loaded
    ensures { (number result.vector, result.shortfall, result.refused) ≡ access_numbers (load 16 memory.now address) }
{
    of_load(memory_loads::v128_load_at(memory, address))
}

#[unsafe(no_mangle)]
pub extern "C" fn gatulefo_v128_load32_zero(memory: &[u8], ptr: u64, offset: u64) -> Loaded
    ensures { (number result.vector, result.shortfall, result.refused) ≡ access_numbers (load 4 memory.now (ptr + offset)) }
{
    of_load(memory_loads::v128_load32_zero(memory, ptr, offset))
}

#[unsafe(no_mangle)]
pub extern "C" fn gatulefo_v128_load32_zero_at(memory: &[u8], address: usize) -> Loaded
    ensures { (number result.vector, result.shortfall, result.refused) ≡ access_numbers (load 4 memory.now address) }
{
    of_load(memory_loads::v128_load32_zero_at(memory, address))
}

#[unsafe(no_mangle)]
pub extern "C" fn gatulefo_v128_load64_zero(memory: &[u8], ptr: u64, offset: u64) -> Loaded
    ensures { (number result.vector, result.shortfall, result.refused) ≡ access_numbers (load 8 memory.now (ptr + offset)) }
{
    of_load(memory_loads::v128_load64_zero(memory, ptr, offset))
}

#[unsafe(no_mangle)]
pub extern "C" fn gatulefo_v128_load64_zero_at(memory: &[u8], address: usize) -> Loaded
    ensures { (number result.vector, result.shortfall, result.refused) ≡ access_numbers (load 8 memory.now address) }
{
    of_load(memory_loads::v128_load64_zero_at(memory, address))
}

#[unsafe(no_mangle)]
pub extern "C" fn gatulefo_v128_load8_splat(memory: &[u8], ptr: u64, offset: u64) -> Loaded
    ensures { (number result.vector, result.shortfall, result.refused) ≡ access_numbers (load_splat 8 memory.now (ptr + offset)) }
{
    of_load(memory_loads::v128_load8_splat(memory, ptr, offset))
}

#[unsafe(no_mangle)]
pub extern "C" fn gatulefo_v128_load8_splat_at(memory: &[u8], address: usize) -> Loaded
    ensures { (number result.vector, result.shortfall, result.refused) ≡ access_numbers (load_splat 8 memory.now address) }
{
    of_load(memory_loads::v128_load8_splat_at(memory, address))
}

#[unsafe(no_mangle)]
pub extern "C" fn gatulefo_v128_load16_splat(memory: &[u8], ptr: u64, offset: u64) -> Loaded
    ensures { (number result.vector, result.shortfall, result.refused) ≡ access_numbers (load_splat 16 memory.now (ptr + offset)) }
{
    of_load(memory_loads::v128_load16_splat(memory, ptr, offset))
}

#[unsafe(no_mangle)]
pub extern "C" fn gatulefo_v128_load16_splat_at(memory: &[u8], address: usize) -> Loaded
    ensures { (number result.vector, result.shortfall, result.refused) ≡ access_numbers (load_splat 16 memory.now address) }
{
    of_load(memory_loads::v128_load16_splat_at(memory, address))
}

#[unsafe(no_mangle)]
pub extern "C" fn gatulefo_v128_load32_splat(memory: &[u8], ptr: u64, offset: u64) -> Loaded
    ensures { (number result.vector, result.shortfall, result.refused) ≡ access_numbers (load_splat 32 memory.now (ptr + offset)) }
{
    of_load(memory_loads::v128_load32_splat(memory, ptr, offset))
}

#[unsafe(no_mangle)]
pub extern "C" fn gatulefo_v128_load32_splat_at(memory: &[u8], address: usize) -> Loaded
    ensures { (number result.vector, result.shortfall, result.refused) ≡ access_numbers (load_splat 32 memory.now address) }
{
    of_load(memory_loads::v128_load32_splat_at(memory, address))
}

#[unsafe(no_mangle)]
pub extern "C" fn gatulefo_v128_load64_splat(memory: &[u8], ptr: u64, offset: u64) -> Loaded
    ensures { (number result.vector, result.shortfall, result.refused) ≡ access_numbers (load_splat 64 memory.now (ptr + offset)) }
{
    of_load(memory_loads::v128_load64_splat(memory, ptr, offset))
}

#[unsafe(no_mangle)]
pub extern "C" fn gatulefo_v128_load64_splat_at(memory: &[u8], address: usize) -> Loaded
    ensures { (number result.vector, result.shortfall, result.refused) ≡ access_numbers (load_splat 64 memory.now address) }
{
    of_load(memory_loads::v128_load64_splat_at(memory, address))
}

#[unsafe(no_mangle)]
pub extern "C" fn gatulefo_v128_load8x8_s(memory: &[u8], ptr: u64, offset: u64) -> Loaded
    ensures { (number result.vector, result.shortfall, result.refused) ≡ access_numbers (load_widen extend_s 8 memory.now (ptr + offset)) }
{
    of_load(memory_loads::v128_load8x8_s(memory, ptr, offset))
}

#[unsafe(no_mangle)]
pub extern "C" fn gatulefo_v128_load8x8_s_at(memory: &[u8], address: usize) -> Loaded
    ensures { (number result.vector, result.shortfall, result.refused) ≡ access_numbers (load_widen extend_s 8 memory.now address) }
{
    of_load(memory_loads::v128_load8x8_s_at(memory, address))
}

#[unsafe(no_mangle)]
pub extern "C" fn gatulefo_v128_load8x8_u(memory: &[u8], ptr: u64, offset: u64) -> Loaded
    ensures { (number result.vector, result.shortfall, result.refused) ≡ access_numbers (load_widen extend_u 8 memory.now (ptr + offset)) }
{
    of_load(memory_loads::v128_load8x8_u(memory, ptr, offset))
}

#[unsafe(no_mangle)]
pub extern "C" fn gatulefo_v128_load8x8_u_at(memory: &[u8], address: usize) -> Loaded
    ensures { (number result.vector, result.shortfall, result.refused) ≡ access_numbers (load_widen extend_u 8 memory.now address) }
{
    of_load(memory_loads::v128_load8x8_u_at(memory, address))
}

#[unsafe(no_mangle)]
pub extern "C" fn gatulefo_v128_load16x4_s(memory: &[u8], ptr: u64, offset: u64) -> Loaded
    ensures { (number result.vector, result.shortfall, result.refused) ≡ access_numbers (load_widen extend_s 16 memory.now (ptr + offset)) }
{
    of_load(memory_loads::v128_load16x4_s(memory, ptr, offset))
}

#[unsafe(no_mangle)]
pub extern "C" fn gatulefo_v128_load16x4_s_at(memory: &[u8], address: usize) -> Loaded
    ensures { (number result.vector, result.shortfall, result.refused) ≡ access_numbers (load_widen extend_s 16 memory.now address) }
{
    of_load(memory_loads::v128_load16x4_s_at(memory, address))
}

#[unsafe(no_mangle)]
pub extern "C" fn gatulefo_v128_load16x4_u(memory: &[u8], ptr: u64, offset: u64) -> Loaded
    ensures { (number result.vector, result.shortfall, result.refused) ≡ access_numbers (load_widen extend_u 16 memory.now (ptr + offset)) }
{
    of_load(memory_loads::v128_load16x4_u(memory, ptr, offset))
}

#[unsafe(no_mangle)]
pub extern "C" fn gatulefo_v128_load16x4_u_at(memory: &[u8], address: usize) -> Loaded
    ensures { (number result.vector, result.shortfall, result.refused) ≡ access_numbers (load_widen extend_u 16 memory.now address) }
{
    of_load(memory_loads::v128_load16x4_u_at(memory, address))
}

#[unsafe(no_mangle)]
pub extern "C" fn gatulefo_v128_load32x2_s(memory: &[u8], ptr: u64, offset: u64) -> Loaded
    ensures { (number result.vector, result.shortfall, result.refused) ≡ access_numbers (load_widen extend_s 32 memory.now (ptr + offset)) }
{
    of_load(memory_loads::v128_load32x2_s(memory, ptr, offset))
}

#[unsafe(no_mangle)]
pub extern "C" fn gatulefo_v128_load32x2_s_at(memory: &[u8], address: usize) -> Loaded
    ensures { (number result.vector, result.shortfall, result.refused) ≡ access_numbers (load_widen extend_s 32 memory.now address) }
{
    of_load(memory_loads::v128_load32x2_s_at(memory, address))
}

#[unsafe(no_mangle)]
pub extern "C" fn gatulefo_v128_load32x2_u(memory: &[u8], ptr: u64, offset: u64) -> Loaded
    ensures { (number result.vector, result.shortfall, result.refused) ≡ access_numbers (load_widen extend_u 32 memory.now (ptr + offset)) }
{
    of_load(memory_loads::v128_load32x2_u(memory, ptr, offset))
}

#[unsafe(no_mangle)]
pub extern "C" fn gatulefo_v128_load32x2_u_at(memory: &[u8], address: usize) -> Loaded
    ensures { (number result.vector, result.shortfall, result.refused) ≡ access_numbers (load_widen extend_u 32 memory.now address) }
{
    of_load(memory_loads::v128_load32x2_u_at(memory, address))
}

#[unsafe(no_mangle)]
pub extern "C" fn gatulefo_v128_load8_lane(
    memory: &[u8],
    ptr: u64,
    offset: u64,
    x: V128,
    lane: u8,
) -> Loaded
    ensures { (number result.vector, result.shortfall, result.refused) ≡ access_numbers (load_lane 8 (number x) lane memory.now (ptr + offset)) }
{
    of_load(memory_loads::v128_load8_lane(memory, ptr, offset, x, lane))
}

#[unsafe(no_mangle)]
pub extern "C" fn gatulefo_v128_load8_lane_at(
    memory: &[u8],
    address: usize,
    x: V128,
    lane: u8,
) -> Loaded
    ensures { (number result.vector, result.shortfall, result.refused) ≡ access_numbers (load_lane 8 (number x) lane memory.now address) }
{
    of_load(memory_loads::v128_load8_lane_at(memory, address, x, lane))
}

#[unsafe(no_mangle)]
pub extern "C" fn gatulefo_v128_load16_lane(
    memory: &[u8],
    ptr: u64,
    offset: u64,
    x: V128,
    lane: u8,
) -> Loaded
    ensures { (number result.vector, result.shortfall, result.refused) ≡ access_numbers (load_lane 16 (number x) lane memory.now (ptr + offset)) }
{
    of_load(memory_loads::v128_load16_lane(memory, ptr, offset, x, lane))
}

#[unsafe(no_mangle)]
pub extern "C" fn gatulefo_v128_load16_lane_at(
    memory: &[u8],
    address: usize,
    x: V128,
    lane: u8,
) -> Loaded
    ensures { (number result.vector, result.shortfall, result.refused) ≡ access_numbers (load_lane 16 (number x) lane memory.now address) }
{
    of_load(memory_loads::v128_load16_lane_at(memory, address, x, lane))
}

#[unsafe(no_mangle)]
pub extern "C" fn gatulefo_v128_load32_lane(
    memory: &[u8],
    ptr: u64,
    offset: u64,
    x: V128,
    lane: u8,
) -> Loaded
    ensures { (number result.vector, result.shortfall, result.refused) ≡ access_numbers (load_lane 32 (number x) lane memory.now (ptr + offset)) }
{
    of_load(memory_loads::v128_load32_lane(memory, ptr, offset, x, lane))
}

#[unsafe(no_mangle)]
pub extern "C" fn gatulefo_v128_load32_lane_at(
    memory: &[u8],
    address: usize,
    x: V128,
    lane: u8,
) -> Loaded
    ensures { (number result.vector, result.shortfall, result.refused) ≡ access_numbers (load_lane 32 (number x) lane memory.now address) }
{
    of_load(memory_loads::v128_load32_lane_at(memory, address, x, lane))
}

#[unsafe(no_mangle)]
pub extern "C" fn gatulefo_v128_load64_lane(
    memory: &[u8],
    ptr: u64,
    offset: u64,
    x: V128,
    lane: u8,
) -> Loaded
    ensures { (number result.vector, result.shortfall, result.refused) ≡ access_numbers (load_lane 64 (number x) lane memory.now (ptr + offset)) }
{
    of_load(memory_loads::v128_load64_lane(memory, ptr, offset, x, lane))
}

#[unsafe(no_mangle)]
pub extern "C" fn gatulefo_v128_load64_lane_at(
    memory: &[u8],
    address: usize,
    x: V128,
    lane: u8,
) -> Loaded
    ensures { (number result.vector, result.shortfall, result.refused) ≡ access_numbers (load_lane 64 (number x) lane memory.now address) }
{
    of_load(memory_loads::v128_load64_lane_at(memory, address, x, lane))
}
