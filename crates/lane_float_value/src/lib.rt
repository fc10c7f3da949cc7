// A float by its pattern of bits, of 32 bits or of 64, and the steps between patterns and the language's floats that differ with the width. All else about
// floats is written once, of any `P: Pattern`.
#![tactic(auto)]

mod nan;

ghost use Rattle.std.specs.Prelude.{◌≡◌, ℕ, Bool, ◌+◌, ◌*◌, ◌<◌, ◌||◌, true, false, not, if◌then◌else◌, IsFalse, refl};
ghost use Rattle.std.specs.Float.{Format, Float, binary32, binary64, nan};
ghost use Rattle.std.specs.Float.Ieee;
ghost use Rattle.std.specs.Float.Ieee.{of_bits, to_bits, nan_bits, top, hid, ones, emax, low};
ghost use Rattle.standard.specs.Float.{width};
ghost use Rattle.standard.specs.Integer.{truth};

pub use lane_integer::choose::pick;
use nan::{is_number32, is_number64, ordered32, ordered64};
use std::ops::{Add, Div, Mul, Sub};

pub trait Pattern: Copy {
    // f32 or f64.
    type Number: Copy
        + PartialEq
        + Add<Output = Self::Number>
        + Sub<Output = Self::Number>
        + Mul<Output = Self::Number>
        + Div<Output = Self::Number>;

    // The weight of the sign, that of the exponent's last digit, and the infinity's pattern.
    const SIGN: u64;

    const FIELD: u64;

    const INFINITY: u64;

    // What stands in the exponent's field of 1. The least float above 0 is 2^-LOWEST, and every float whose field is above LOWEST is whole.
    const BIAS: u64;

    const LOWEST: u64;

    ghost SIGN: { ℕ };

    ghost FIELD: { ℕ };

    ghost INFINITY: { ℕ };

    ghost BIAS: { ℕ };

    ghost LOWEST: { ℕ };

    ghost format: { Format };

    // A pattern as a plain number, and a float as the toolchain's account of IEEE 754 has it.
    ghost bits: { Self → ℕ };

    ghost float: { Self.Number → Float };

    // Work on single bits is done on 64 bits; compiled, it is of the pattern's own width.
    fn to_u64(self) -> u64
        ensures same { result ≡ bits self }
        ensures fits { result < 2 * top format };

    fn from_u64(n: u64) -> Self
        requires { n < 2 * top format }
        ensures { bits result ≡ n };

    // The pattern of every NaN that is a result: the positive quiet one.
    fn nan() -> Self
        ensures { bits result ≡ to_bits format nan };

    // All ones or all zeros.
    fn truth(t: bool) -> Self
        ensures { bits result ≡ truth (width format) t };

    // The language's conversions between floats and bits are undefined at a NaN, so a pattern is tested before, and `of` is the only way out.
    fn number(self) -> Self::Number
        requires { IsFalse (nan_bits format (bits self)) }
        ensures { float result ≡ of_bits format (bits self) };

    fn of(x: Self::Number) -> Self
        ensures { bits result ≡ to_bits format (float x) };

    // By `<` and `<=` of the language's own types: those of a type parameter go by `partial_cmp`, which makes three comparisons.
    fn less(x: Self::Number, y: Self::Number) -> bool
        ensures { result ≡ Ieee.lt (float x) (float y) };

    fn at_most(x: Self::Number, y: Self::Number) -> bool
        ensures { result ≡ Ieee.le (float x) (float y) };

    // Whether neither of two patterns is a NaN: else every comparison is false but "not equal" (document 01, "Lane rules").
    fn ordered(self, other: Self) -> bool
        ensures { result ≡ not (nan_bits format (bits self) || nan_bits format (bits other)) };

    // Equal numbers have one magnitude, so the bits of both together are a NaN's only where those of one are: one test does for two.
    fn may_equal(self, other: Self) -> bool
        ensures numbers { result ≡ true → (IsFalse (nan_bits format (bits self)) × IsFalse (nan_bits format (bits other))) }
        ensures unequal { result ≡ false → IsFalse (Ieee.eq (of_bits format (bits self)) (of_bits format (bits other))) };

    ghost sign_is: { SIGN ≡ top format };

    ghost field_is: { FIELD ≡ hid format };

    ghost infinity_is: { INFINITY ≡ ones format * hid format };

    ghost bias_is: { BIAS ≡ emax format };

    ghost lowest_is: { LOWEST ≡ low format };

    // The operators of `Number` are IEEE 754's, at all operands.
    ghost can_add_law: { (x y : Self.Number) → Self.Number.can_add x y };

    ghost can_sub_law: { (x y : Self.Number) → Self.Number.can_sub x y };

    ghost can_mul_law: { (x y : Self.Number) → Self.Number.can_mul x y };

    ghost can_div_law: { (x y : Self.Number) → Self.Number.can_div x y };

    ghost add_law: { (x y r : Self.Number) → Self.Number.add_gives x y r → float r ≡ Ieee.add format (float x) (float y) };

    ghost sub_law: { (x y r : Self.Number) → Self.Number.sub_gives x y r → float r ≡ Ieee.sub format (float x) (float y) };

    ghost mul_law: { (x y r : Self.Number) → Self.Number.mul_gives x y r → float r ≡ Ieee.mul format (float x) (float y) };

    ghost div_law: { (x y r : Self.Number) → Self.Number.div_gives x y r → float r ≡ Ieee.div format (float x) (float y) };

    ghost eq_law: { (x y : Self.Number) → Self.Number.PartialEq.eq x y ≡ Ieee.eq (float x) (float y) };
}

impl Pattern for u32 {
    type Number = f32;

    const SIGN: u64 = 0x8000_0000;

    const FIELD: u64 = 0x80_0000;

    const INFINITY: u64 = 0x7F80_0000;

    const BIAS: u64 = 127;

    const LOWEST: u64 = 149;

    ghost SIGN = { 0x8000_0000 };

    ghost FIELD = { 0x80_0000 };

    ghost INFINITY = { 0x7F80_0000 };

    ghost BIAS = { 127 };

    ghost LOWEST = { 149 };

    ghost format = { binary32 };

    ghost bits = { λ n. n };

    ghost float = { λ x. x };

    fn to_u64(self) -> u64 {
        self as u64
    }

    fn from_u64(n: u64) -> u32 {
        n as u32
    }

    fn nan() -> u32 {
        0x7FC0_0000
    }

    fn truth(t: bool) -> u32 {
        pick(t, u32::MAX, 0)
    }

    fn number(self) -> f32 {
        f32::from_bits(self)
    }

    fn of(x: f32) -> u32 {
        if x == x { f32::to_bits(x) } else { u32::nan() }
    }

    fn less(x: f32, y: f32) -> bool {
        x < y
    }

    fn at_most(x: f32, y: f32) -> bool {
        x <= y
    }

    fn ordered(self, other: u32) -> bool {
        ordered32(self, other)
    }

    fn may_equal(self, other: u32) -> bool {
        is_number32(self | other)
    }

    ghost sign_is = { refl };

    ghost field_is = { refl };

    ghost infinity_is = { refl };

    ghost bias_is = { refl };

    ghost lowest_is = { refl };

    ghost can_add_law = { λ x y. tt };

    ghost can_sub_law = { λ x y. tt };

    ghost can_mul_law = { λ x y. tt };

    ghost can_div_law = { λ x y. tt };

    ghost add_law = { λ x y r e. e };

    ghost sub_law = { λ x y r e. e };

    ghost mul_law = { λ x y r e. e };

    ghost div_law = { λ x y r e. e };

    ghost eq_law = { λ x y. refl };
}

impl Pattern for u64 {
    type Number = f64;

    const SIGN: u64 = 0x8000_0000_0000_0000;

    const FIELD: u64 = 0x10_0000_0000_0000;

    const INFINITY: u64 = 0x7FF0_0000_0000_0000;

    const BIAS: u64 = 1023;

    const LOWEST: u64 = 1074;

    ghost SIGN = { 0x8000_0000_0000_0000 };

    ghost FIELD = { 0x10_0000_0000_0000 };

    ghost INFINITY = { 0x7FF0_0000_0000_0000 };

    ghost BIAS = { 1023 };

    ghost LOWEST = { 1074 };

    ghost format = { binary64 };

    ghost bits = { λ n. n };

    ghost float = { λ x. x };

    fn to_u64(self) -> u64 {
        self
    }

    fn from_u64(n: u64) -> u64 {
        n
    }

    fn nan() -> u64 {
        0x7FF8_0000_0000_0000
    }

    fn truth(t: bool) -> u64 {
        pick(t, u64::MAX, 0)
    }

    fn number(self) -> f64 {
        f64::from_bits(self)
    }

    fn of(x: f64) -> u64 {
        if x == x { f64::to_bits(x) } else { u64::nan() }
    }

    fn less(x: f64, y: f64) -> bool {
        x < y
    }

    fn at_most(x: f64, y: f64) -> bool {
        x <= y
    }

    fn ordered(self, other: u64) -> bool {
        ordered64(self, other)
    }

    fn may_equal(self, other: u64) -> bool {
        is_number64(self | other)
    }

    ghost sign_is = { refl };

    ghost field_is = { refl };

    ghost infinity_is = { refl };

    ghost bias_is = { refl };

    ghost lowest_is = { refl };

    ghost can_add_law = { λ x y. tt };

    ghost can_sub_law = { λ x y. tt };

    ghost can_mul_law = { λ x y. tt };

    ghost can_div_law = { λ x y. tt };

    ghost add_law = { λ x y r e. e };

    ghost sub_law = { λ x y r e. e };

    ghost mul_law = { λ x y r e. e };

    ghost div_law = { λ x y r e. e };

    ghost eq_law = { λ x y. refl };
}
