// The widths of which a half has several lanes, and one digit repeated in every lane of a half.
ghost use Rattle.std.specs.Prelude.{ℕ, ◌≡◌, ◌+◌, ◌-◌, ◌*◌, ◌/◌, ◌^◌, refl, replicate};
ghost use Rattle.standard.specs.Lanes.{joined};

/// A width of which a half has several lanes. Its constants are the compiler's too, so that a form costs what it would with the numbers written out.
pub trait Lanes {
    ghost LOW_BITS: { ℕ };

    ghost LOW: { ℕ };

    ghost TOP: { ℕ };

    ghost ONE: { ℕ };

    ghost ALL: { ℕ };

    /// How many bits a lane has below the top one.
    const LOW_BITS: u32;

    /// In each lane, all bits but the top one.
    const LOW: u64;

    /// In each lane, the top bit.
    const TOP: u64;

    /// In each lane, the lowest bit.
    const ONE: u64;

    /// All bits of one lane.
    const ALL: u64;

    ghost whole: { (1 + LOW_BITS) * (64 / (1 + LOW_BITS)) ≡ 64 };

    ghost low: { LOW ≡ joined (1 + LOW_BITS) (replicate (64 / (1 + LOW_BITS)) (2 ^ LOW_BITS - 1)) };

    ghost top: { TOP ≡ joined (1 + LOW_BITS) (replicate (64 / (1 + LOW_BITS)) (2 ^ LOW_BITS)) };

    ghost one: { ONE ≡ joined (1 + LOW_BITS) (replicate (64 / (1 + LOW_BITS)) 1) };

    ghost full: { 2 ^ 64 - 1 ≡ joined (1 + LOW_BITS) (replicate (64 / (1 + LOW_BITS)) (2 ^ (1 + LOW_BITS) - 1)) };

    ghost all: { ALL ≡ 2 ^ (1 + LOW_BITS) - 1 };
}

pub struct Lanes8;

pub struct Lanes16;

pub struct Lanes32;

impl Lanes for Lanes8 {
    ghost LOW_BITS = { 7 };

    ghost LOW = { 0x7f7f_7f7f_7f7f_7f7f };

    ghost TOP = { 0x8080_8080_8080_8080 };

    ghost ONE = { 0x0101_0101_0101_0101 };

    ghost ALL = { 0xff };

    const LOW_BITS: u32 = 7;

    const LOW: u64 = 0x7f7f_7f7f_7f7f_7f7f;

    const TOP: u64 = 0x8080_8080_8080_8080;

    const ONE: u64 = 0x0101_0101_0101_0101;

    const ALL: u64 = 0xff;

    ghost whole = { refl };

    ghost low = { refl };

    ghost top = { refl };

    ghost one = { refl };

    ghost full = { refl };

    ghost all = { refl };
}

impl Lanes for Lanes16 {
    ghost LOW_BITS = { 15 };

    ghost LOW = { 0x7fff_7fff_7fff_7fff };

    ghost TOP = { 0x8000_8000_8000_8000 };

    ghost ONE = { 0x0001_0001_0001_0001 };

    ghost ALL = { 0xffff };

    const LOW_BITS: u32 = 15;

    const LOW: u64 = 0x7fff_7fff_7fff_7fff;

    const TOP: u64 = 0x8000_8000_8000_8000;

    const ONE: u64 = 0x0001_0001_0001_0001;

    const ALL: u64 = 0xffff;

    ghost whole = { refl };

    ghost low = { refl };

    ghost top = { refl };

    ghost one = { refl };

    ghost full = { refl };

    ghost all = { refl };
}

impl Lanes for Lanes32 {
    ghost LOW_BITS = { 31 };

    ghost LOW = { 0x7fff_ffff_7fff_ffff };

    ghost TOP = { 0x8000_0000_8000_0000 };

    ghost ONE = { 0x0000_0001_0000_0001 };

    ghost ALL = { 0xffff_ffff };

    const LOW_BITS: u32 = 31;

    const LOW: u64 = 0x7fff_ffff_7fff_ffff;

    const TOP: u64 = 0x8000_0000_8000_0000;

    const ONE: u64 = 0x0000_0001_0000_0001;

    const ALL: u64 = 0xffff_ffff;

    ghost whole = { refl };

    ghost low = { refl };

    ghost top = { refl };

    ghost one = { refl };

    ghost full = { refl };

    ghost all = { refl };
}
