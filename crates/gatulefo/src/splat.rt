// Splat: every lane is the scalar.
ghost use Rattle.simd.specs.Number.{number};
ghost use Rattle.standard.specs.Lanes.{splat};
ghost use Rattle.std.specs.Prelude.{◌≡◌};

use simd::{Lanes, V128};

#[unsafe(no_mangle)]
pub extern "C" fn gatulefo_i64x2_splat(bits: u64) -> V128
    ensures { number result ≡ splat 64 bits }
{
    u64::splat(bits)
}

#[unsafe(no_mangle)]
pub extern "C" fn gatulefo_i32x4_splat(bits: u32) -> V128
    ensures { number result ≡ splat 32 bits }
{
    u32::splat(bits)
}

#[unsafe(no_mangle)]
pub extern "C" fn gatulefo_i16x8_splat(bits: u16) -> V128
    ensures { number result ≡ splat 16 bits }
{
    u16::splat(bits)
}

#[unsafe(no_mangle)]
pub extern "C" fn gatulefo_i8x16_splat(bits: u8) -> V128
    ensures { number result ≡ splat 8 bits }
{
    u8::splat(bits)
}

#[unsafe(no_mangle)]
pub extern "C" fn gatulefo_f32x4_splat(bits: u32) -> V128
    ensures { number result ≡ splat 32 bits }
{
    u32::splat(bits)
}

#[unsafe(no_mangle)]
pub extern "C" fn gatulefo_f64x2_splat(bits: u64) -> V128
    ensures { number result ≡ splat 64 bits }
{
    u64::splat(bits)
}
