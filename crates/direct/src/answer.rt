// An answer before its memory: the refusal number, what the result is, and the result. What a result does not use is zero.
use crate::layout::*;
use calculator_rules::shape::Kind;
use lane_float::{F32, F64};
use lane_integer::Lane;
use memory_access::AccessError;
use simd::V128;
use standard_refusal::Refusal;

// No such function here, or no request to answer.
const NONE: u8 = 255;

const NOTHING: u8 = 0;

const IS_VECTOR: u8 = 1;

const IS_SCALAR: u8 = 2;

const IS_BOOL: u8 = 3;

#[derive(Clone, Copy)]
pub struct Answer {
    pub refusal: u8,
    pub result: u8,
    // the number of a scalar's kind
    pub kind: u8,
    pub bits: u64,
    pub vector: V128,
}

impl Answer {
    pub fn refused(number: u8) -> Answer {
        let zero = V128 { lo: 0, hi: 0 };
        Answer {
            refusal: number,
            result: NOTHING,
            kind: 0,
            bits: 0,
            vector: zero,
        }
    }

    // An access past the end comes with its shortfall.
    fn error(error: AccessError) -> Answer {
        Answer {
            bits: error.shortfall(),
            ..Answer::refused(error.number())
        }
    }

    pub fn none() -> Answer {
        Answer::refused(NONE)
    }

    pub fn vector(v: V128) -> Answer {
        Answer {
            refusal: 0,
            result: IS_VECTOR,
            kind: 0,
            bits: 0,
            vector: v,
        }
    }

    fn of_bits(res: u8, kind: u8, bits: u64) -> Answer {
        let zero = V128 { lo: 0, hi: 0 };
        Answer {
            refusal: 0,
            result: res,
            kind,
            bits,
            vector: zero,
        }
    }

    fn scalar(kind: Kind, bits: u64) -> Answer {
        Answer::of_bits(IS_SCALAR, kind.number(), bits)
    }

    pub fn u32(x: u32) -> Answer {
        Answer::scalar(Kind::I32, x as u64)
    }

    pub fn boolean(x: bool) -> Answer {
        if x {
            Answer::of_bits(IS_BOOL, 0, 1)
        } else {
            Answer::of_bits(IS_BOOL, 0, 0)
        }
    }

    pub fn of_vector(v: Result<V128, Refusal>) -> Answer {
        match v {
            Ok(x) => Answer::vector(x),
            Err(refusal) => Answer::refused(u8::from(refusal)),
        }
    }

    pub fn of_i32(v: Result<i32, Refusal>) -> Answer {
        match v {
            Ok(x) => Answer::u32(u32::of_signed(x)),
            Err(refusal) => Answer::refused(u8::from(refusal)),
        }
    }

    pub fn of_u32(v: Result<u32, Refusal>) -> Answer {
        match v {
            Ok(x) => Answer::u32(x),
            Err(refusal) => Answer::refused(u8::from(refusal)),
        }
    }

    pub fn of_i64(v: Result<i64, Refusal>) -> Answer {
        match v {
            Ok(x) => Answer::scalar(Kind::I64, u64::of_signed(x)),
            Err(refusal) => Answer::refused(u8::from(refusal)),
        }
    }

    pub fn of_f32(v: Result<F32, Refusal>) -> Answer {
        match v {
            Ok(x) => Answer::scalar(Kind::F32, x.to_bits() as u64),
            Err(refusal) => Answer::refused(u8::from(refusal)),
        }
    }

    pub fn of_f64(v: Result<F64, Refusal>) -> Answer {
        match v {
            Ok(x) => Answer::scalar(Kind::F64, x.to_bits()),
            Err(refusal) => Answer::refused(u8::from(refusal)),
        }
    }

    pub fn of_load(v: Result<V128, AccessError>) -> Answer {
        match v {
            Ok(x) => Answer::vector(x),
            Err(error) => Answer::error(error),
        }
    }

    // A store has no result: what it wrote is in the memory.
    pub fn of_store(v: Result<(), AccessError>) -> Answer {
        match v {
            Ok(()) => Answer::of_bits(NOTHING, 0, 0),
            Err(error) => Answer::error(error),
        }
    }

    // The 80 bytes of an answer of a function without memory.
    pub fn bytes(self) -> [u8; 80] {
        let mut out = [0u8; 80];
        out[REFUSAL] = self.refusal;
        out[RESULT] = self.result;
        out[KIND] = self.kind;
        put(&mut out, BITS, self.bits);
        let v = self.vector;
        put(&mut out, VECTOR, v.lo);
        put(&mut out, VECTOR + 8, v.hi);
        out
    }

    // The 80 bytes of an answer of a function with this memory.
    pub fn bytes_with(self, memory: &[u8; 48]) -> [u8; 80] {
        let mut out = self.bytes();
        for i in 0..48 {
            out[AFTERWARDS + i] = memory[i];
        }
        out
    }
}
