// Tests for a NaN of one width. Two of them together are free of branches, and a vector has an instruction for each step.
ghost use Rattle.std.specs.Prelude.{◌≡◌, ◌||◌, not, cond, ◌/◌, ◌^◌, eqb};
ghost use Rattle.std.specs.Float.{binary32, binary64};
ghost use Rattle.std.specs.Float.Ieee.{nan_bits};

// A NaN has a magnitude above the infinity's.
fn plain32(bits: u32) -> bool
    ensures { result ≡ nan_bits binary32 bits }
{
    0x7F80_0000 < bits % 0x8000_0000
}

// The same by the pattern with its sign set. Two tests of two forms have no constant in common, which the compiler would keep in a register.
fn signed32(bits: u32) -> bool
    ensures { result ≡ nan_bits binary32 bits }
{
    0xFF80_0000 < (bits | 0x8000_0000)
}

pub(crate) fn ordered32(a: u32, b: u32) -> bool
    ensures { result ≡ not (nan_bits binary32 a || nan_bits binary32 b) }
{
    !(plain32(a) | signed32(b))
}

pub(crate) fn is_number32(bits: u32) -> bool
    ensures { result ≡ not (nan_bits binary32 bits) }
{
    !plain32(bits)
}

// A magnitude above the infinity's, 2^63 - 2^52, carries into bit 63 when 2^52 - 1 is added. A comparison of 64-bit numbers in a vector takes nine
// instructions, this takes two.
fn carry64(bits: u64) -> u64
    ensures { result / 2 ^ 63 ≡ cond (nan_bits binary64 bits) 1 0 }
{
    bits % 0x8000_0000_0000_0000 + 0xF_FFFF_FFFF_FFFF
}

// The same by the pattern with its sign set, as at 32 bits.
fn carry_signed64(bits: u64) -> u64
    ensures { result / 2 ^ 63 ≡ cond (nan_bits binary64 bits) 1 0 }
{
    (bits | 0x8000_0000_0000_0000) - 0x7FF0_0000_0000_0001
}

// Whether bit 63 is clear. As a pattern the bit is zero or the smallest number above it, and a vector has a comparison of floats.
fn clear64(bits: u64) -> bool
    ensures { result ≡ eqb (bits / 2 ^ 63) 0 }
{
    f64::from_bits(bits / 0x8000_0000_0000_0000) < f64::from_bits(1)
}

pub(crate) fn ordered64(a: u64, b: u64) -> bool
    ensures { result ≡ not (nan_bits binary64 a || nan_bits binary64 b) }
{
    clear64(carry64(a) | carry_signed64(b))
}

pub(crate) fn is_number64(bits: u64) -> bool
    ensures { result ≡ not (nan_bits binary64 bits) }
{
    clear64(carry64(bits))
}
