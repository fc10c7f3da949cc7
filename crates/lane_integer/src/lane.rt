// A lane of a vector: a number of 8, 16, 32 or 64 bits. What the widths do not share is here, each an operation of the language; the rest is generic over
// them. "Shift counts are taken modulo the lane width"; shr_s is the language's own shift of a signed number, the floor of a division by 2^k.
ghost use Rattle.std.specs.Prelude.{◌≡◌, ℕ, ℤ, ◌-◌, ◌^◌, eqb, ltb};
ghost use Rattle.std.specs.Int.Signed.{lt_z};
ghost use Rattle.standard.specs.Integer.{signed, modulo, iadd, isub, imul, ishl, ishr_u, ishr_s};

/// A number of `width` bits. Its sums, differences and products come round modulo 2^width; `_u` reads it as it is, `_s` as a signed number.
pub trait Lane: Copy {
    ghost width: { ℕ };

    ghost number: { Self → ℕ };

    /// The signed numbers of so many bits.
    type Signed: Copy;

    ghost integer: { Self.Signed → ℤ };

    fn zero() -> Self
        ensures { number result ≡ 0 };

    fn ones() -> Self
        ensures { number result ≡ 2 ^ width - 1 };

    /// The lane's bits read as a signed number, and back: what the Rust's `as` does between its signed and unsigned lanes.
    fn signed(self) -> Self::Signed
        ensures { integer result ≡ signed width (number self) };

    fn of_signed(z: Self::Signed) -> Self
        ensures { number result ≡ modulo width (integer z) };

    fn add(self, other: Self) -> Self
        ensures { number result ≡ iadd width (number self) (number other) };

    fn sub(self, other: Self) -> Self
        ensures { number result ≡ isub width (number self) (number other) };

    fn mul(self, other: Self) -> Self
        ensures { number result ≡ imul width (number self) (number other) };

    fn eq(self, other: Self) -> bool
        ensures { result ≡ eqb (number self) (number other) };

    fn lt_u(self, other: Self) -> bool
        ensures { result ≡ ltb (number self) (number other) };

    fn lt_s(self, other: Self) -> bool
        ensures { result ≡ lt_z (signed width (number self)) (signed width (number other)) };

    fn shl(self, count: u32) -> Self
        ensures { number result ≡ ishl width count (number self) };

    fn shr_u(self, count: u32) -> Self
        ensures { number result ≡ ishr_u width count (number self) };

    fn shr_s(self, count: u32) -> Self
        ensures { number result ≡ ishr_s width count (number self) };
}

impl Lane for u8 {
    ghost width = { 8 };

    ghost number = { λ x. x };

    type Signed = i8;

    ghost integer = { λ z. z };

    fn signed(self) -> i8 {
        self.cast_signed()
    }

    fn of_signed(z: i8) -> u8 {
        z.cast_unsigned()
    }

    fn zero() -> u8 {
        0
    }

    fn ones() -> u8 {
        u8::MAX
    }

    fn add(self, other: u8) -> u8 {
        self.wrapping_add(other)
    }

    fn sub(self, other: u8) -> u8 {
        self.wrapping_sub(other)
    }

    fn mul(self, other: u8) -> u8 {
        self.wrapping_mul(other)
    }

    fn eq(self, other: u8) -> bool {
        self == other
    }

    fn lt_u(self, other: u8) -> bool {
        self < other
    }

    fn lt_s(self, other: u8) -> bool {
        self.signed() < other.signed()
    }

    fn shl(self, count: u32) -> u8 {
        self << (count % 8)
    }

    fn shr_u(self, count: u32) -> u8 {
        self >> (count % 8)
    }

    fn shr_s(self, count: u32) -> u8 {
        (self.cast_signed() >> (count % 8)).cast_unsigned()
    }
}

impl Lane for u16 {
    ghost width = { 16 };

    ghost number = { λ x. x };

    type Signed = i16;

    ghost integer = { λ z. z };

    fn signed(self) -> i16 {
        self.cast_signed()
    }

    fn of_signed(z: i16) -> u16 {
        z.cast_unsigned()
    }

    fn zero() -> u16 {
        0
    }

    fn ones() -> u16 {
        u16::MAX
    }

    fn add(self, other: u16) -> u16 {
        self.wrapping_add(other)
    }

    fn sub(self, other: u16) -> u16 {
        self.wrapping_sub(other)
    }

    fn mul(self, other: u16) -> u16 {
        self.wrapping_mul(other)
    }

    fn eq(self, other: u16) -> bool {
        self == other
    }

    fn lt_u(self, other: u16) -> bool {
        self < other
    }

    fn lt_s(self, other: u16) -> bool {
        self.signed() < other.signed()
    }

    fn shl(self, count: u32) -> u16 {
        self << (count % 16)
    }

    fn shr_u(self, count: u32) -> u16 {
        self >> (count % 16)
    }

    fn shr_s(self, count: u32) -> u16 {
        (self.cast_signed() >> (count % 16)).cast_unsigned()
    }
}

impl Lane for u32 {
    ghost width = { 32 };

    ghost number = { λ x. x };

    type Signed = i32;

    ghost integer = { λ z. z };

    fn signed(self) -> i32 {
        self.cast_signed()
    }

    fn of_signed(z: i32) -> u32 {
        z.cast_unsigned()
    }

    fn zero() -> u32 {
        0
    }

    fn ones() -> u32 {
        u32::MAX
    }

    fn add(self, other: u32) -> u32 {
        self.wrapping_add(other)
    }

    fn sub(self, other: u32) -> u32 {
        self.wrapping_sub(other)
    }

    fn mul(self, other: u32) -> u32 {
        self.wrapping_mul(other)
    }

    fn eq(self, other: u32) -> bool {
        self == other
    }

    fn lt_u(self, other: u32) -> bool {
        self < other
    }

    fn lt_s(self, other: u32) -> bool {
        self.signed() < other.signed()
    }

    fn shl(self, count: u32) -> u32 {
        self << (count % 32)
    }

    fn shr_u(self, count: u32) -> u32 {
        self >> (count % 32)
    }

    fn shr_s(self, count: u32) -> u32 {
        (self.cast_signed() >> (count % 32)).cast_unsigned()
    }
}

impl Lane for u64 {
    ghost width = { 64 };

    ghost number = { λ x. x };

    type Signed = i64;

    ghost integer = { λ z. z };

    fn signed(self) -> i64 {
        self.cast_signed()
    }

    fn of_signed(z: i64) -> u64 {
        z.cast_unsigned()
    }

    fn zero() -> u64 {
        0
    }

    fn ones() -> u64 {
        u64::MAX
    }

    fn add(self, other: u64) -> u64 {
        self.wrapping_add(other)
    }

    fn sub(self, other: u64) -> u64 {
        self.wrapping_sub(other)
    }

    fn mul(self, other: u64) -> u64 {
        self.wrapping_mul(other)
    }

    fn eq(self, other: u64) -> bool {
        self == other
    }

    fn lt_u(self, other: u64) -> bool {
        self < other
    }

    fn lt_s(self, other: u64) -> bool {
        self.signed() < other.signed()
    }

    fn shl(self, count: u32) -> u64 {
        self << (count % 64)
    }

    fn shr_u(self, count: u32) -> u64 {
        self >> (count % 64)
    }

    fn shr_s(self, count: u32) -> u64 {
        (self.cast_signed() >> (count % 64)).cast_unsigned()
    }
}
