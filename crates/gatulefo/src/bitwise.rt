// Bitwise operations, on whole halves.
ghost use Rattle.simd.specs.Number.{number};
ghost use Rattle.standard.specs.Integer.{inot, iand, iandnot, ior, ixor, ibitselect};
ghost use Rattle.std.specs.Prelude.{◌≡◌};

use simd::V128;

#[unsafe(no_mangle)]
pub extern "C" fn gatulefo_v128_and(lhs: V128, rhs: V128) -> V128
    ensures { number result ≡ iand 128 (number lhs) (number rhs) }
{
    lhs.v128_and(rhs)
}

#[unsafe(no_mangle)]
pub extern "C" fn gatulefo_v128_or(lhs: V128, rhs: V128) -> V128
    ensures { number result ≡ ior 128 (number lhs) (number rhs) }
{
    lhs.v128_or(rhs)
}

#[unsafe(no_mangle)]
pub extern "C" fn gatulefo_v128_xor(lhs: V128, rhs: V128) -> V128
    ensures { number result ≡ ixor 128 (number lhs) (number rhs) }
{
    lhs.v128_xor(rhs)
}

#[unsafe(no_mangle)]
pub extern "C" fn gatulefo_v128_andnot(lhs: V128, rhs: V128) -> V128
    ensures { number result ≡ iandnot 128 (number lhs) (number rhs) }
{
    lhs.v128_andnot(rhs)
}

#[unsafe(no_mangle)]
pub extern "C" fn gatulefo_v128_not(v: V128) -> V128
    ensures { number result ≡ inot 128 (number v) }
{
    v.v128_not()
}

#[unsafe(no_mangle)]
pub extern "C" fn gatulefo_v128_bitselect(v1: V128, v2: V128, c: V128) -> V128
    ensures { number result ≡ ibitselect 128 (number v1) (number v2) (number c) }
{
    v1.v128_bitselect(v2, c)
}
