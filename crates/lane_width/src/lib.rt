// Lanes of one width from those of half or twice the width: extending, narrowing, and the sums over the two halves of a lane.
#![tactic(auto)]

ghost use Rattle.std.specs.Prelude.{◌≡◌, refl, ℕ, ◌+◌, ◌*◌, ◌/◌, ◌%◌, ◌^◌};
ghost use Rattle.standard.specs.Lanes.{digits, lanes};
ghost use Rattle.standard.specs.Integer.{extend_u, extend_s, narrow_u, narrow_s};
ghost use Rattle.lane_width.specs.Widen.{half_of, pair_sum, pair_product};

use lane_integer::Lane;

/// A lane as two lanes of half its width.
pub trait Double: Lane {
    type Half: Lane;

    fn low(self) -> Self::Half
        ensures { Self.Half.number result ≡ Self.number self % 2 ^ Self.Half.width };

    fn high(self) -> Self::Half
        ensures { Self.Half.number result ≡ Self.number self / 2 ^ Self.Half.width };

    fn extend_s(half: Self::Half) -> Self
        ensures { Self.number result ≡ extend_s Self.Half.width Self.width (Self.Half.number half) };

    fn extend_u(half: Self::Half) -> Self
        ensures { Self.number result ≡ extend_u Self.Half.width Self.width (Self.Half.number half) };

    ghost doubled: { Self.width ≡ 2 * Self.Half.width };
}

impl Double for u16 {
    type Half = u8;

    fn low(self) -> u8 {
        (self % 256) as u8
    }

    fn high(self) -> u8 {
        (self / 256) as u8
    }

    fn extend_s(half: u8) -> u16 {
        u16::of_signed(i16::from(half.signed()))
    }

    fn extend_u(half: u8) -> u16 {
        u16::from(half)
    }

    ghost doubled = { refl };
}

impl Double for u32 {
    type Half = u16;

    fn low(self) -> u16 {
        (self % 65536) as u16
    }

    fn high(self) -> u16 {
        (self / 65536) as u16
    }

    fn extend_s(half: u16) -> u32 {
        u32::of_signed(i32::from(half.signed()))
    }

    fn extend_u(half: u16) -> u32 {
        u32::from(half)
    }

    ghost doubled = { refl };
}

impl Double for u64 {
    type Half = u32;

    fn low(self) -> u32 {
        (self % 4294967296) as u32
    }

    fn high(self) -> u32 {
        (self / 4294967296) as u32
    }

    fn extend_s(half: u32) -> u64 {
        u64::of_signed(i64::from(half.signed()))
    }

    fn extend_u(half: u32) -> u64 {
        u64::from(half)
    }

    ghost doubled = { refl };
}

/// A lane that is narrowed to half its width, by its signed reading held to the range.
pub trait Narrows: Double {
    fn narrow_s(self) -> Self::Half
        ensures { Self.Half.number result ≡ narrow_s Self.width Self.Half.width (Self.number self) };

    fn narrow_u(self) -> Self::Half
        ensures { Self.Half.number result ≡ narrow_u Self.width Self.Half.width (Self.number self) };
}

impl Narrows for u16 {
    fn narrow_s(self) -> u8 {
        u8::of_signed(self.signed().clamp(-128, 127) as i8)
    }

    fn narrow_u(self) -> u8 {
        u16::signed(self).clamp(0, 255) as u8
    }
}

impl Narrows for u32 {
    fn narrow_s(self) -> u16 {
        u16::of_signed(self.signed().clamp(-32768, 32767) as i16)
    }

    fn narrow_u(self) -> u16 {
        u32::signed(self).clamp(0, 65535) as u16
    }
}

pub fn extadd_s<D: Double>(x: D) -> D
    ensures { D.number result ≡ pair_sum extend_s D.Half.width (D.number x) }
{
    D::extend_s(x.low()).add(D::extend_s(x.high()))
}

pub fn extadd_u<D: Double>(x: D) -> D
    ensures { D.number result ≡ pair_sum extend_u D.Half.width (D.number x) }
{
    D::extend_u(x.low()).add(D::extend_u(x.high()))
}

/// The products of the halves as signed numbers, added modulo 2^width: dot, and of bytes what the relaxed dots are made of.
pub fn dot<D: Double>(a: D, b: D) -> D
    ensures { D.number result ≡ pair_product D.Half.width (D.number a) (D.number b) }
{
    let low = D::extend_s(a.low()).mul(D::extend_s(b.low()));
    let high = D::extend_s(a.high()).mul(D::extend_s(b.high()));
    low.add(high)
}

// The half of a vector that is asked for: at every width its lanes are the low or the high half of the vector's lanes.
pub fn half(lo: u64, hi: u64, high: bool) -> u64
    ensures { (w n : ℕ) → w * n ≡ 64 → n + n ≡ 128 / w → half_of high (lanes w (lo + 2 ^ 64 * hi)) ≡ digits w n result }
{
    if high { hi } else { lo }
}
