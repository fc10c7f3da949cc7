// Float lanes by their patterns, and a float scalar: the number itself, or the bits of a NaN. The language's own conversions between floats and
// bits are undefined at a NaN, so a pattern is tested first; the standard moves a NaN's sign and payload along with the rest of a lane.
#![tactic(auto)]

ghost use Rattle.std.specs.Prelude.{◌≡◌};
ghost use Rattle.std.specs.Float.Ieee;
ghost use Rattle.std.specs.Float.Ieee.{of_bits, nan_bits};
ghost use Rattle.standard.specs.Float.{fneg, fabs};
ghost use Rattle.lane_float.specs.Scalar.{f32_bits, f64_bits};

pub use lane_float_value::Pattern;

// A NaN has a magnitude above the infinity's.
pub fn is_nan<P: Pattern>(bits: P) -> bool
    ensures { result ≡ nan_bits P.format (P.bits bits) }
{
    P::INFINITY < bits.to_u64() % P::SIGN
}

pub fn feq<P: Pattern>(a: P, b: P) -> bool
    ensures { result ≡ Ieee.eq (of_bits P.format (P.bits a)) (of_bits P.format (P.bits b)) }
{
    if a.may_equal(b) {
        a.number() == b.number()
    } else {
        false
    }
}

pub fn flt<P: Pattern>(a: P, b: P) -> bool
    ensures { result ≡ Ieee.lt (of_bits P.format (P.bits a)) (of_bits P.format (P.bits b)) }
{
    if a.ordered(b) {
        P::less(a.number(), b.number())
    } else {
        false
    }
}

pub fn fle<P: Pattern>(a: P, b: P) -> bool
    ensures { result ≡ Ieee.le (of_bits P.format (P.bits a)) (of_bits P.format (P.bits b)) }
{
    if a.ordered(b) {
        P::at_most(a.number(), b.number())
    } else {
        false
    }
}

// "Float neg and abs touch the sign bit only, of a NaN too" (document 01, "Lane rules").
pub fn fneg<P: Pattern>(x: P) -> P
    ensures { P.bits result ≡ fneg P.format (P.bits x) }
{
    P::from_u64(x.to_u64() ^ P::SIGN)
}

pub fn fabs<P: Pattern>(x: P) -> P
    ensures { P.bits result ≡ fabs P.format (P.bits x) }
{
    P::from_u64(x.to_u64() % P::SIGN)
}

// Two types, since C has a name for each, and the calculator's scalar a variant for each.
#[derive(Clone, Copy)]
pub enum F32 {
    Number(f32),
    Nan(u32),
}

#[derive(Clone, Copy)]
pub enum F64 {
    Number(f64),
    Nan(u64),
}

impl F32 {
    pub fn from_bits(bits: u32) -> F32
        ensures { f32_bits result ≡ bits }
    {
        if is_nan(bits) {
            F32::Nan(bits)
        } else {
            F32::Number(bits.number())
        }
    }

    // A `Number` that is a NaN after all has the pattern of the positive quiet one.
    pub fn to_bits(self) -> u32
        ensures { result ≡ f32_bits self }
    {
        match self {
            F32::Number(x) => u32::of(x),
            F32::Nan(bits) => bits,
        }
    }
}

impl F64 {
    pub fn from_bits(bits: u64) -> F64
        ensures { f64_bits result ≡ bits }
    {
        if is_nan(bits) {
            F64::Nan(bits)
        } else {
            F64::Number(bits.number())
        }
    }

    // A `Number` that is a NaN after all has the pattern of the positive quiet one.
    pub fn to_bits(self) -> u64
        ensures { result ≡ f64_bits self }
    {
        match self {
            F64::Number(x) => u64::of(x),
            F64::Nan(bits) => bits,
        }
    }
}
