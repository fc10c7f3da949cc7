// A request taken apart. Its memory and its shuffle indices are read where they are used.
ghost use Rattle.std.specs.Prelude.{◌≡◌};
ghost use Rattle.std.proofs.Math.ListN;

use crate::layout::*;
use simd::V128;

#[derive(Clone, Copy)]
pub struct Request {
    pub function: u16,
    pub lane: u8,
    pub length: usize,
    pub count: u32,
    pub pointer: u64,
    pub offset: u64,
    pub scalar: u64,
    pub a: V128,
    pub b: V128,
    pub c: V128,
}

impl Request {
    pub fn of(bytes: &[u8; 128]) -> Request {
        let a = V128 {
            lo: number(bytes, A),
            hi: number(bytes, A + 8),
        };
        let b = V128 {
            lo: number(bytes, B),
            hi: number(bytes, B + 8),
        };
        let c = V128 {
            lo: number(bytes, C),
            hi: number(bytes, C + 8),
        };
        Request {
            function: low16(number(bytes, FUNCTION)),
            lane: bytes[LANE],
            length: size(bytes[LENGTH]),
            count: low32(number(bytes, COUNT)),
            pointer: number(bytes, POINTER),
            offset: number(bytes, OFFSET),
            scalar: number(bytes, SCALAR),
            a: a,
            b: b,
            c: c,
        }
    }
}

// The sixteen shuffle indices.
pub fn indices(bytes: &[u8; 128]) -> [u8; 16] {
    let mut out = [0u8; 16];
    for i in 0..16 {
        out[i] = bytes[C + i];
    }
    out
}

fn kept(is_kept: bool, x: u8) -> u8 {
    if is_kept { x } else { 0 }
}

// The memory: the first `length` bytes as given, the rest zero. The `ensures` is what lending a part of it asks.
pub fn memory(bytes: &[u8; 128], length: usize) -> [u8; 48]
    ensures { 48 ≡ ListN.length result }
{
    let mut out = [0u8; 48];
    for i in 0..48 {
        out[i] = kept(i < length, bytes[MEMORY + i]);
    }
    out
}
