// Lanes of 8 and 16 bits by way of a wider number: exact results held to a range, sat_u and sat_s of the standard, and the operations that end in them.
#![tactic(auto)]

ghost use Rattle.std.specs.Prelude.{◌≡◌};
ghost use Rattle.standard.specs.Integer.{signed, sat_s, iadd_sat_u, iadd_sat_s, isub_sat_u, isub_sat_s, iavgr_u, iq15mulrsat_s};

use lane_integer::Lane;

/// A lane whose sums, differences and products have room in 32 bits. A signed sum is held to the range there: the compiler knows that form as one instruction, and the
/// language's `saturating_add` takes three times as many (12 in place of 4 for `i16x8_add_sat_s`).
pub trait Narrow: Lane {
    /// The signed reading of a lane, with room for a sum.
    fn wide(self) -> i32
        ensures { result ≡ signed Self.width (Self.number self) };

    /// A whole number held to the signed range.
    fn held(z: i32) -> Self
        ensures { Self.number result ≡ sat_s Self.width z };

    fn add_sat_s(self, other: Self) -> Self
        ensures { Self.number result ≡ iadd_sat_s Self.width (Self.number self) (Self.number other) };

    fn add_sat_u(self, other: Self) -> Self
        ensures { Self.number result ≡ iadd_sat_u Self.width (Self.number self) (Self.number other) };

    fn sub_sat_s(self, other: Self) -> Self
        ensures { Self.number result ≡ isub_sat_s Self.width (Self.number self) (Self.number other) };

    fn sub_sat_u(self, other: Self) -> Self
        ensures { Self.number result ≡ isub_sat_u Self.width (Self.number self) (Self.number other) };

    fn avgr_u(self, other: Self) -> Self
        ensures { Self.number result ≡ iavgr_u Self.width (Self.number self) (Self.number other) };
}

impl Narrow for u8 {
    fn wide(self) -> i32 {
        i32::from(u8::signed(self))
    }

    fn held(z: i32) -> u8 {
        u8::of_signed(z.clamp(-128, 127) as i8)
    }

    fn add_sat_s(self, other: u8) -> u8 {
        u8::held(self.wide() + other.wide())
    }

    fn add_sat_u(self, other: u8) -> u8 {
        self.saturating_add(other)
    }

    fn sub_sat_s(self, other: u8) -> u8 {
        u8::held(self.wide() - other.wide())
    }

    fn sub_sat_u(self, other: u8) -> u8 {
        self.saturating_sub(other)
    }

    fn avgr_u(self, other: u8) -> u8 {
        ((u32::from(self) + u32::from(other) + 1) / 2) as u8
    }
}

impl Narrow for u16 {
    fn wide(self) -> i32 {
        i32::from(u16::signed(self))
    }

    fn held(z: i32) -> u16 {
        u16::of_signed(z.clamp(-32768, 32767) as i16)
    }

    fn add_sat_s(self, other: u16) -> u16 {
        u16::held(self.wide() + other.wide())
    }

    fn add_sat_u(self, other: u16) -> u16 {
        self.saturating_add(other)
    }

    fn sub_sat_s(self, other: u16) -> u16 {
        u16::held(self.wide() - other.wide())
    }

    fn sub_sat_u(self, other: u16) -> u16 {
        self.saturating_sub(other)
    }

    fn avgr_u(self, other: u16) -> u16 {
        ((u32::from(self) + u32::from(other) + 1) / 2) as u16
    }
}

// The rounded quotient is never below the range (document 02, order 3): the upper end alone is held.
pub fn q15mulr_sat_s(a: u16, b: u16) -> u16
    ensures { result ≡ iq15mulrsat_s 16 a b }
{
    let rounded = (a.wide() * b.wide() + 16384) >> 15;
    if 32767 < rounded {
        u16::of_signed(i16::MAX)
    } else {
        u16::of_signed(rounded as i16)
    }
}
