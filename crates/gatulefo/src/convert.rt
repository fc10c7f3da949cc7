// Lanes in another format: floats rounded to whole numbers, lanes converted between whole numbers and floats and between the float formats. The conversions
// between 32 and 64 bits take the low lanes, or leave zeros above.
ghost use Rattle.simd.specs.Number.{number};
ghost use Rattle.std.specs.Float.{binary32, binary64};
ghost use Rattle.standard.specs.Convert.{fceil, ffloor, ftrunc, fnearest, demote, promote, convert_u, convert_s, trunc_sat_u, trunc_sat_s};
ghost use Rattle.standard.specs.Lanes.{unary};
ghost use Rattle.standard.specs.Vector.{convert_low, convert_zero};
ghost use Rattle.std.specs.Prelude.{◌≡◌};

use simd::V128;

#[unsafe(no_mangle)]
pub extern "C" fn gatulefo_f32x4_ceil(v: V128) -> V128
    ensures { number result ≡ unary 32 (fceil binary32) (number v) }
{
    v.f32x4_ceil()
}

#[unsafe(no_mangle)]
pub extern "C" fn gatulefo_f64x2_ceil(v: V128) -> V128
    ensures { number result ≡ unary 64 (fceil binary64) (number v) }
{
    v.f64x2_ceil()
}

#[unsafe(no_mangle)]
pub extern "C" fn gatulefo_f32x4_floor(v: V128) -> V128
    ensures { number result ≡ unary 32 (ffloor binary32) (number v) }
{
    v.f32x4_floor()
}

#[unsafe(no_mangle)]
pub extern "C" fn gatulefo_f64x2_floor(v: V128) -> V128
    ensures { number result ≡ unary 64 (ffloor binary64) (number v) }
{
    v.f64x2_floor()
}

#[unsafe(no_mangle)]
pub extern "C" fn gatulefo_f32x4_trunc(v: V128) -> V128
    ensures { number result ≡ unary 32 (ftrunc binary32) (number v) }
{
    v.f32x4_trunc()
}

#[unsafe(no_mangle)]
pub extern "C" fn gatulefo_f64x2_trunc(v: V128) -> V128
    ensures { number result ≡ unary 64 (ftrunc binary64) (number v) }
{
    v.f64x2_trunc()
}

#[unsafe(no_mangle)]
pub extern "C" fn gatulefo_f32x4_nearest(v: V128) -> V128
    ensures { number result ≡ unary 32 (fnearest binary32) (number v) }
{
    v.f32x4_nearest()
}

#[unsafe(no_mangle)]
pub extern "C" fn gatulefo_f64x2_nearest(v: V128) -> V128
    ensures { number result ≡ unary 64 (fnearest binary64) (number v) }
{
    v.f64x2_nearest()
}

#[unsafe(no_mangle)]
pub extern "C" fn gatulefo_f32x4_convert_i32x4_s(v: V128) -> V128
    ensures { number result ≡ unary 32 (convert_s binary32) (number v) }
{
    v.f32x4_convert_i32x4_s()
}

#[unsafe(no_mangle)]
pub extern "C" fn gatulefo_f32x4_convert_i32x4_u(v: V128) -> V128
    ensures { number result ≡ unary 32 (convert_u binary32) (number v) }
{
    v.f32x4_convert_i32x4_u()
}

#[unsafe(no_mangle)]
pub extern "C" fn gatulefo_i32x4_trunc_sat_f32x4_s(v: V128) -> V128
    ensures { number result ≡ unary 32 (trunc_sat_s binary32) (number v) }
{
    v.i32x4_trunc_sat_f32x4_s()
}

#[unsafe(no_mangle)]
pub extern "C" fn gatulefo_i32x4_trunc_sat_f32x4_u(v: V128) -> V128
    ensures { number result ≡ unary 32 (trunc_sat_u binary32) (number v) }
{
    v.i32x4_trunc_sat_f32x4_u()
}

#[unsafe(no_mangle)]
pub extern "C" fn gatulefo_f64x2_convert_low_i32x4_s(v: V128) -> V128
    ensures { number result ≡ convert_low (convert_s binary64) (number v) }
{
    v.f64x2_convert_low_i32x4_s()
}

#[unsafe(no_mangle)]
pub extern "C" fn gatulefo_f64x2_convert_low_i32x4_u(v: V128) -> V128
    ensures { number result ≡ convert_low (convert_u binary64) (number v) }
{
    v.f64x2_convert_low_i32x4_u()
}

#[unsafe(no_mangle)]
pub extern "C" fn gatulefo_f64x2_promote_low_f32x4(v: V128) -> V128
    ensures { number result ≡ convert_low promote (number v) }
{
    v.f64x2_promote_low_f32x4()
}

#[unsafe(no_mangle)]
pub extern "C" fn gatulefo_i32x4_trunc_sat_f64x2_s_zero(v: V128) -> V128
    ensures { number result ≡ convert_zero (trunc_sat_s binary64) (number v) }
{
    v.i32x4_trunc_sat_f64x2_s_zero()
}

#[unsafe(no_mangle)]
pub extern "C" fn gatulefo_i32x4_trunc_sat_f64x2_u_zero(v: V128) -> V128
    ensures { number result ≡ convert_zero (trunc_sat_u binary64) (number v) }
{
    v.i32x4_trunc_sat_f64x2_u_zero()
}

#[unsafe(no_mangle)]
pub extern "C" fn gatulefo_f32x4_demote_f64x2_zero(v: V128) -> V128
    ensures { number result ≡ convert_zero demote (number v) }
{
    v.f32x4_demote_f64x2_zero()
}
