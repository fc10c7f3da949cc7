// The calculator's scalar: "an enum whose cases carry the number itself" (document 01). A float is the number or the bits of a NaN, so every
// pattern of bits has a value.
#![tactic(auto)]

ghost use Rattle.std.specs.Prelude.{◌≡◌, ◌%◌, ◌^◌};
ghost use Rattle.standard.specs.Integer.{modulo};
ghost use Rattle.standard.specs.Instruction.{i32};
ghost use Rattle.calculator_rules.specs.Shape.{the_kind};
ghost use Rattle.calculator_scalar.specs.Scalar.{kind_of, bits_of, scalar_of};
ghost use Rattle.calculator_scalar.specs.Count.{as_count};

use calculator_rules::shape::Kind;
use lane_float::{F32, F64};
use lane_integer::Lane;

#[derive(Clone, Copy)]
pub enum Scalar {
    I32(i32),
    I64(i64),
    F32(F32),
    F64(F64),
}

impl Scalar {
    // The i32 with these bits: "Extract, bitmask, any-true and all-true set it (the last three as i32)".
    pub fn of_bits(x: u32) -> Scalar
        ensures { scalar_of result ≡ (i32, x) }
    {
        Scalar::I32(x.signed())
    }

    // The bits; those of a kind of 32 bits are the low ones.
    pub fn bits(self) -> u64
        ensures { result ≡ bits_of self }
    {
        match self {
            Scalar::I32(x) => u32::of_signed(x) as u64,
            Scalar::I64(x) => u64::of_signed(x),
            Scalar::F32(x) => x.to_bits() as u64,
            Scalar::F64(x) => x.to_bits(),
        }
    }

    // The kind, as the rules name it.
    pub fn kind(self) -> Kind
        ensures { the_kind result ≡ kind_of self }
    {
        match self {
            Scalar::I32(_) => Kind::I32,
            Scalar::I64(_) => Kind::I64,
            Scalar::F32(_) => Kind::F32,
            Scalar::F64(_) => Kind::F64,
        }
    }

    // "shift steps take [the count] from the scalar, read as unsigned 32 bits" (document 02, order 2). A scalar of another kind is refused: 0.
    pub fn count(self) -> u32
        ensures { result ≡ as_count (kind_of self) (bits_of self) }
    {
        match self {
            Scalar::I32(x) => u32::of_signed(x),
            _ => 0,
        }
    }
}

// "For 8- and 16-bit lanes the low bits of an i32 are used."
pub fn low8(z: i32) -> i8
    ensures { modulo 8 result ≡ modulo 32 z % 2 ^ 8 }
{
    ((u32::of_signed(z) % 256) as u8).signed()
}

pub fn low16(z: i32) -> i16
    ensures { modulo 16 result ≡ modulo 32 z % 2 ^ 16 }
{
    ((u32::of_signed(z) % 65536) as u16).signed()
}
