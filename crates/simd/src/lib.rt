// WebAssembly's 128-bit vectors: `V128` and the operations on vectors of wasmi_core's simd.rs, under their names, in files by family. Here: the vector, and its
// lanes as arrays and back.
#![tactic(auto)]

pub mod arithmetic;
pub mod bitwise;
pub mod compare;
pub mod convert;
pub mod extract;
pub mod float;
mod lanes;
pub mod rearrange;
pub mod reduce;
pub mod relaxed;
pub mod replace;
pub mod shift;
pub mod splat;
pub mod widen;

ghost use Rattle.std.specs.Prelude.{◌≡◌, ◌++◌, ◌∷◌, [], take, replicate};
ghost use Rattle.standard.specs.Lanes.{digits, joined, lanes};
ghost use Rattle.simd.specs.Number.{number};

pub use lanes::Lanes;

// The 128 bits of a vector, low half first: byte 0 is the low byte of `lo`. Its layout is C's, so that another language can hand one over.
#[repr(C)]
#[derive(Clone, Copy)]
pub struct V128 {
    pub lo: u64,
    pub hi: u64,
}

// The lanes of two halves, low half first.
fn split8(lo: u64, hi: u64) -> [u8; 16]
    ensures { result ≡ digits 8 8 lo ++ digits 8 8 hi }
{
    let l1 = lo / 256;
    let l2 = l1 / 256;
    let l3 = l2 / 256;
    let l4 = l3 / 256;
    let l5 = l4 / 256;
    let l6 = l5 / 256;
    let l7 = l6 / 256;
    let h1 = hi / 256;
    let h2 = h1 / 256;
    let h3 = h2 / 256;
    let h4 = h3 / 256;
    let h5 = h4 / 256;
    let h6 = h5 / 256;
    let h7 = h6 / 256;
    [
        (lo % 256) as u8,
        (l1 % 256) as u8,
        (l2 % 256) as u8,
        (l3 % 256) as u8,
        (l4 % 256) as u8,
        (l5 % 256) as u8,
        (l6 % 256) as u8,
        (l7 % 256) as u8,
        (hi % 256) as u8,
        (h1 % 256) as u8,
        (h2 % 256) as u8,
        (h3 % 256) as u8,
        (h4 % 256) as u8,
        (h5 % 256) as u8,
        (h6 % 256) as u8,
        (h7 % 256) as u8,
    ]
}

// The half of these lanes, lowest first.
fn half8(a: u8, b: u8, c: u8, d: u8, e: u8, f: u8, g: u8, h: u8) -> u64
    ensures { result ≡ joined 8 (a ∷ b ∷ c ∷ d ∷ e ∷ f ∷ g ∷ h ∷ []) }
{
    (a as u64)
        + 256
            * ((b as u64)
                + 256
                    * ((c as u64)
                        + 256
                            * ((d as u64)
                                + 256
                                    * ((e as u64)
                                        + 256
                                            * ((f as u64)
                                                + 256 * ((g as u64) + 256 * ((h as u64))))))))
}

// The lanes of two halves, low half first.
fn split16(lo: u64, hi: u64) -> [u16; 8]
    ensures { result ≡ digits 16 4 lo ++ digits 16 4 hi }
{
    let l1 = lo / 65536;
    let l2 = l1 / 65536;
    let l3 = l2 / 65536;
    let h1 = hi / 65536;
    let h2 = h1 / 65536;
    let h3 = h2 / 65536;
    [
        (lo % 65536) as u16,
        (l1 % 65536) as u16,
        (l2 % 65536) as u16,
        (l3 % 65536) as u16,
        (hi % 65536) as u16,
        (h1 % 65536) as u16,
        (h2 % 65536) as u16,
        (h3 % 65536) as u16,
    ]
}

// The half of these lanes, lowest first.
fn half16(a: u16, b: u16, c: u16, d: u16) -> u64
    ensures { result ≡ joined 16 (a ∷ b ∷ c ∷ d ∷ []) }
{
    (a as u64) + 65536 * ((b as u64) + 65536 * ((c as u64) + 65536 * ((d as u64))))
}

// The lanes of two halves, low half first.
fn split32(lo: u64, hi: u64) -> [u32; 4]
    ensures { result ≡ digits 32 2 lo ++ digits 32 2 hi }
{
    let l1 = lo / 4294967296;
    let h1 = hi / 4294967296;
    [
        (lo % 4294967296) as u32,
        (l1 % 4294967296) as u32,
        (hi % 4294967296) as u32,
        (h1 % 4294967296) as u32,
    ]
}

// The half of these lanes, lowest first.
fn half32(a: u32, b: u32) -> u64
    ensures { result ≡ joined 32 (a ∷ b ∷ []) }
{
    (a as u64) + 4294967296 * ((b as u64))
}

impl V128 {
    // The sixteen bytes, byte 0 first, and a vector of them.
    pub fn lanes8(self) -> [u8; 16]
        ensures { result ≡ lanes 8 (number self) }
    {
        split8(self.lo, self.hi)
    }

    pub fn join8(a: [u8; 16]) -> V128
        ensures { number result ≡ joined 8 a }
    {
        V128 {
            lo: half8(a[0], a[1], a[2], a[3], a[4], a[5], a[6], a[7]),
            hi: half8(a[8], a[9], a[10], a[11], a[12], a[13], a[14], a[15]),
        }
    }

    fn lanes16(self) -> [u16; 8]
        ensures { result ≡ lanes 16 (number self) }
    {
        split16(self.lo, self.hi)
    }

    fn join16(a: [u16; 8]) -> V128
        ensures { number result ≡ joined 16 a }
    {
        V128 {
            lo: half16(a[0], a[1], a[2], a[3]),
            hi: half16(a[4], a[5], a[6], a[7]),
        }
    }

    fn lanes32(self) -> [u32; 4]
        ensures { result ≡ lanes 32 (number self) }
    {
        split32(self.lo, self.hi)
    }

    fn join32(a: [u32; 4]) -> V128
        ensures { number result ≡ joined 32 a }
    {
        V128 {
            lo: half32(a[0], a[1]),
            hi: half32(a[2], a[3]),
        }
    }

    // The lanes with idle places after them, and a vector of the lanes before them. One for each width, since the language computes no const argument; by loops that copy: with `copy_from_slice` the loops over lanes are not
    // unrolled (docs/DECISIONS.md, "Idle places"), and `i8x16_add` takes 109 instructions in place of 4.
    fn places8(self) -> [u8; 64]
        ensures { result ≡ lanes 8 (number self) ++ replicate 48 0 }
    {
        let s = self.lanes8();
        let mut r = [0; 64];
        for i in 0..16 {
            r[i] = s[i];
        }
        r
    }

    fn from_places8(s: [u8; 64]) -> V128
        ensures { number result ≡ joined 8 (take 16 s) }
    {
        let mut r = [0; 16];
        for i in 0..16 {
            r[i] = s[i];
        }
        V128::join8(r)
    }

    fn places16(self) -> [u16; 64]
        ensures { result ≡ lanes 16 (number self) ++ replicate 56 0 }
    {
        let s = self.lanes16();
        let mut r = [0; 64];
        for i in 0..8 {
            r[i] = s[i];
        }
        r
    }

    fn from_places16(s: [u16; 64]) -> V128
        ensures { number result ≡ joined 16 (take 8 s) }
    {
        let mut r = [0; 8];
        for i in 0..8 {
            r[i] = s[i];
        }
        V128::join16(r)
    }

    fn places32(self) -> [u32; 64]
        ensures { result ≡ lanes 32 (number self) ++ replicate 60 0 }
    {
        let s = self.lanes32();
        let mut r = [0; 64];
        for i in 0..4 {
            r[i] = s[i];
        }
        r
    }

    fn from_places32(s: [u32; 64]) -> V128
        ensures { number result ≡ joined 32 (take 4 s) }
    {
        let mut r = [0; 4];
        for i in 0..4 {
            r[i] = s[i];
        }
        V128::join32(r)
    }
}
