// Where each field stands in a request and in an answer, and numbers as bytes, low byte first.
//
// A request: 0..1 function number, 2 lane, 3 memory length, 4..7 shift count, 8..15 pointer or address, 16..23 offset, 24..31 scalar or bits operand,
// 32..47 a, 48..63 b, 64..79 c or the sixteen shuffle indices, 80..127 memory.
//
// An answer: 0 refusal number, 1 what the result is (0 nothing, 1 a vector, 2 a scalar, 3 a boolean), 2 the kind of a scalar (0 i32, 1 i64, 2 f32, 3 f64), 3..7
// zero, 8..15 the bits of a scalar or a boolean or, with refusal 7, the shortfall, 16..31 vector, 32..79 the memory afterwards.
ghost use Rattle.std.specs.Prelude.{◌+◌, ◌≤◌};

pub const REQUEST: usize = 128;

pub const FUNCTION: usize = 0;

pub const LANE: usize = 2;

pub const LENGTH: usize = 3;

pub const COUNT: usize = 4;

pub const POINTER: usize = 8;

pub const OFFSET: usize = 16;

pub const SCALAR: usize = 24;

pub const A: usize = 32;

pub const B: usize = 48;

pub const C: usize = 64;

pub const MEMORY: usize = 80;

pub const ANSWER: usize = 80;

pub const REFUSAL: usize = 0;

pub const RESULT: usize = 1;

pub const KIND: usize = 2;

pub const BITS: usize = 8;

pub const VECTOR: usize = 16;

pub const AFTERWARDS: usize = 32;

// The most bytes of memory that a request has.
pub const MOST: usize = 48;

pub fn low8(x: u64) -> u8 {
    (x % 256) as u8
}

pub fn low16(x: u64) -> u16 {
    (x % 65536) as u16
}

pub fn low32(x: u64) -> u32 {
    (x % 4294967296) as u32
}

fn wide(x: u8) -> u64 {
    x as u64
}

pub fn size(x: u8) -> usize {
    x as usize
}

// The number of eight bytes, low byte first.
pub fn number(request: &[u8; 128], at: usize) -> u64
    requires { at + 8 ≤ 128 }
{
    wide(request[at])
        | (wide(request[at + 1]) << 8)
        | (wide(request[at + 2]) << 16)
        | (wide(request[at + 3]) << 24)
        | (wide(request[at + 4]) << 32)
        | (wide(request[at + 5]) << 40)
        | (wide(request[at + 6]) << 48)
        | (wide(request[at + 7]) << 56)
}

// Eight bytes of an answer set to a number, low byte first.
pub fn put(answer: &mut [u8; 80], at: usize, x: u64)
    requires { at + 8 ≤ 80 }
{
    answer[at] = low8(x);
    answer[at + 1] = low8(x >> 8);
    answer[at + 2] = low8(x >> 16);
    answer[at + 3] = low8(x >> 24);
    answer[at + 4] = low8(x >> 32);
    answer[at + 5] = low8(x >> 40);
    answer[at + 6] = low8(x >> 48);
    answer[at + 7] = low8(x >> 56);
}
