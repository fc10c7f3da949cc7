// Loads that hand back the vector alone, in two registers: 0 where the load is refused. Whether a 0 is a refusal, `gatulefo_shortfall` says. For an interpreter
// whose handlers end in a jump to the next, since a handler that lends a place on its stack cannot. The address of an `_at` function is `ptr`, with the
// offset 0.
// Made by link/exports.
ghost use Rattle.link_answers.specs.Handed.{access_or_zero};
ghost use Rattle.simd.specs.Number.{number};
ghost use Rattle.standard.specs.Integer.{extend_s, extend_u};
ghost use Rattle.standard.specs.Memory.{load, load_splat, load_widen, load_lane};
ghost use Rattle.std.specs.Prelude.{◌≡◌, ◌+◌};

use link_answers::answer::load_or_zero;
use simd::V128;

#[unsafe(no_mangle)]
pub extern "C" fn gatulefo_value_v128_load(memory: &[u8], ptr: u64, offset: u64) -> V128
    ensures { number result ≡ access_or_zero (load 16 memory.now (ptr + offset)) }
{
    load_or_zero(memory_loads::v128_load(memory, ptr, offset))
}

#[unsafe(no_mangle)]
pub extern "C" fn gatulefo_value_v128_load32_zero(memory: &[u8], ptr: u64, offset: u64) -> V128
    ensures { number result ≡ access_or_zero (load 4 memory.now (ptr + offset)) }
{
    load_or_zero(memory_loads::v128_load32_zero(memory, ptr, offset))
}

#[unsafe(no_mangle)]
pub extern "C" fn gatulefo_value_v128_load64_zero(memory: &[u8], ptr: u64, offset: u64) -> V128
    ensures { number result ≡ access_or_zero (load 8 memory.now (ptr + offset)) }
{
    load_or_zero(memory_loads::v128_load64_zero(memory, ptr, offset))
}

#[unsafe(no_mangle)]
pub extern "C" fn gatulefo_value_v128_load8_splat(memory: &[u8], ptr: u64, offset: u64) -> V128
    ensures { number result ≡ access_or_zero (load_splat 8 memory.now (ptr + offset)) }
{
    load_or_zero(memory_loads::v128_load8_splat(memory, ptr, offset))
}

#[unsafe(no_mangle)]
pub extern "C" fn gatulefo_value_v128_load16_splat(memory: &[u8], ptr: u64, offset: u64) -> V128
    ensures { number result ≡ access_or_zero (load_splat 16 memory.now (ptr + offset)) }
{
    load_or_zero(memory_loads::v128_load16_splat(memory, ptr, offset))
}

#[unsafe(no_mangle)]
pub extern "C" fn gatulefo_value_v128_load32_splat(memory: &[u8], ptr: u64, offset: u64) -> V128
    ensures { number result ≡ access_or_zero (load_splat 32 memory.now (ptr + offset)) }
{
    load_or_zero(memory_loads::v128_load32_splat(memory, ptr, offset))
}

#[unsafe(no_mangle)]
pub extern "C" fn gatulefo_value_v128_load64_splat(memory: &[u8], ptr: u64, offset: u64) -> V128
    ensures { number result ≡ access_or_zero (load_splat 64 memory.now (ptr + offset)) }
{
    load_or_zero(memory_loads::v128_load64_splat(memory, ptr, offset))
}

#[unsafe(no_mangle)]
pub extern "C" fn gatulefo_value_v128_load8x8_s(memory: &[u8], ptr: u64, offset: u64) -> V128
    ensures { number result ≡ access_or_zero (load_widen extend_s 8 memory.now (ptr + offset)) }
{
    load_or_zero(memory_loads::v128_load8x8_s(memory, ptr, offset))
}

#[unsafe(no_mangle)]
pub extern "C" fn gatulefo_value_v128_load8x8_u(memory: &[u8], ptr: u64, offset: u64) -> V128
    ensures { number result ≡ access_or_zero (load_widen extend_u 8 memory.now (ptr + offset)) }
{
    load_or_zero(memory_loads::v128_load8x8_u(memory, ptr, offset))
}

#[unsafe(no_mangle)]
pub extern "C" fn gatulefo_value_v128_load16x4_s(memory: &[u8], ptr: u64, offset: u64) -> V128
    ensures { number result ≡ access_or_zero (load_widen extend_s 16 memory.now (ptr + offset)) }
{
    load_or_zero(memory_loads::v128_load16x4_s(memory, ptr, offset))
}

#[unsafe(no_mangle)]
pub extern "C" fn gatulefo_value_v128_load16x4_u(memory: &[u8], ptr: u64, offset: u64) -> V128
    ensures { number result ≡ access_or_zero (load_widen extend_u 16 memory.now (ptr + offset)) }
{
    load_or_zero(memory_loads::v128_load16x4_u(memory, ptr, offset))
}

#[unsafe(no_mangle)]
pub extern "C" fn gatulefo_value_v128_load32x2_s(memory: &[u8], ptr: u64, offset: u64) -> V128
    ensures { number result ≡ access_or_zero (load_widen extend_s 32 memory.now (ptr + offset)) }
{
    load_or_zero(memory_loads::v128_load32x2_s(memory, ptr, offset))
}

#[unsafe(no_mangle)]
pub extern "C" fn gatulefo_value_v128_load32x2_u(memory: &[u8], ptr: u64, offset: u64) -> V128
    ensures { number result ≡ access_or_zero (load_widen extend_u 32 memory.now (ptr + offset)) }
{
    load_or_zero(memory_loads::v128_load32x2_u(memory, ptr, offset))
}

#[unsafe(no_mangle)]
pub extern "C" fn gatulefo_value_v128_load8_lane(
    memory: &[u8],
    ptr: u64,
    offset: u64,
    x: V128,
    lane: u8,
) -> V128
    ensures { number result ≡ access_or_zero (load_lane 8 (number x) lane memory.now (ptr + offset)) }
{
    load_or_zero(memory_loads::v128_load8_lane(memory, ptr, offset, x, lane))
}

#[unsafe(no_mangle)]
pub extern "C" fn gatulefo_value_v128_load16_lane(
    memory: &[u8],
    ptr: u64,
    offset: u64,
    x: V128,
    lane: u8,
) -> V128
    ensures { number result ≡ access_or_zero (load_lane 16 (number x) lane memory.now (ptr + offset)) }
{
    load_or_zero(memory_loads::v128_load16_lane(memory, ptr, offset, x, lane))
}

#[unsafe(no_mangle)]
pub extern "C" fn gatulefo_value_v128_load32_lane(
    memory: &[u8],
    ptr: u64,
    offset: u64,
    x: V128,
    lane: u8,
) -> V128
    ensures { number result ≡ access_or_zero (load_lane 32 (number x) lane memory.now (ptr + offset)) }
{
    load_or_zero(memory_loads::v128_load32_lane(memory, ptr, offset, x, lane))
}

#[unsafe(no_mangle)]
pub extern "C" fn gatulefo_value_v128_load64_lane(
    memory: &[u8],
    ptr: u64,
    offset: u64,
    x: V128,
    lane: u8,
) -> V128
    ensures { number result ≡ access_or_zero (load_lane 64 (number x) lane memory.now (ptr + offset)) }
{
    load_or_zero(memory_loads::v128_load64_lane(memory, ptr, offset, x, lane))
}
