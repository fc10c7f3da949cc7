// What comes back where an operation may refuse: the value and document 01's number of the refusal, and of an access how far past the end it runs (document
// 02, order 9). The number is 0 where the value is given, and the value is 0 where it is refused. Or the vector alone, 0 where it is refused: it fits the two
// registers in which C hands a value back, so that whoever calls has no place in memory to lend.
ghost use Rattle.std.specs.Prelude.{ℕ, List, ◌≡◌};
ghost use Rattle.simd.specs.Answers.{vector_answer, i32_answer, u32_answer, i64_answer};
ghost use Rattle.simd.specs.Number.{number};
ghost use Rattle.memory_loads.specs.LoadAnswer.{load_answer};
ghost use Rattle.memory_access.specs.AccessError.{store_answer};
ghost use Rattle.link_answers.specs.Handed.{pair, or_zero, access_numbers, access_or_zero, store_numbers};

use lane_integer::Lane;
use memory_access::AccessError;
use simd::V128;
use standard_refusal::Refusal;

// The bits of a lane; or the number of a refusal, 4, and the bits are 0.
#[repr(C)]
#[derive(Clone, Copy)]
pub struct BitsOrRefusal {
    pub bits: u64,
    pub refused: u8,
}

// A vector; or the number of a refusal, 4 or 5, and the vector is 0.
#[repr(C)]
#[derive(Clone, Copy)]
pub struct VectorOrRefusal {
    pub vector: V128,
    pub refused: u8,
}

// The vector of a load; or the number of a refusal, 4 or 7, and the vector is 0. With a 7 goes how far past the end the access runs, at most 2^64-1; else
// that is 0.
#[repr(C)]
#[derive(Clone, Copy)]
pub struct Loaded {
    pub vector: V128,
    pub shortfall: u64,
    pub refused: u8,
}

// The number of a store's refusal, 4 or 7, or 0; with a 7 how far past the end the access runs, at most 2^64-1.
#[repr(C)]
#[derive(Clone, Copy)]
pub struct Stored {
    pub shortfall: u64,
    pub refused: u8,
}

fn wide(x: u32) -> u64
    ensures { result ≡ x }
{
    x as u64
}

// One for each type that the definition's views name (`i32_answer`, `u32_answer`, `i64_answer`): each hands C other bits.
#[tactic(auto, unfolding(crate::specs::Handed::pair))]
pub fn of_i32(answer: Result<i32, Refusal>) -> BitsOrRefusal
    ensures { (result.bits, result.refused) ≡ pair (i32_answer answer) }
{
    match answer {
        Ok(value) => BitsOrRefusal {
            bits: wide(u32::of_signed(value)),
            refused: 0,
        },
        Err(refusal) => BitsOrRefusal {
            bits: 0,
            refused: u8::from(refusal),
        },
    }
}

#[tactic(auto, unfolding(crate::specs::Handed::pair))]
pub fn of_u32(answer: Result<u32, Refusal>) -> BitsOrRefusal
    ensures { (result.bits, result.refused) ≡ pair (u32_answer answer) }
{
    match answer {
        Ok(value) => BitsOrRefusal {
            bits: wide(value),
            refused: 0,
        },
        Err(refusal) => BitsOrRefusal {
            bits: 0,
            refused: u8::from(refusal),
        },
    }
}

#[tactic(auto, unfolding(crate::specs::Handed::pair))]
pub fn of_i64(answer: Result<i64, Refusal>) -> BitsOrRefusal
    ensures { (result.bits, result.refused) ≡ pair (i64_answer answer) }
{
    match answer {
        Ok(value) => BitsOrRefusal {
            bits: u64::of_signed(value),
            refused: 0,
        },
        Err(refusal) => BitsOrRefusal {
            bits: 0,
            refused: u8::from(refusal),
        },
    }
}

#[tactic(auto, unfolding(crate::specs::Handed::pair))]
pub fn of_vector(answer: Result<V128, Refusal>) -> VectorOrRefusal
    ensures { (number result.vector, result.refused) ≡ pair (vector_answer answer) }
{
    match answer {
        Ok(vector) => VectorOrRefusal { vector, refused: 0 },
        Err(refusal) => VectorOrRefusal {
            vector: V128 { lo: 0, hi: 0 },
            refused: u8::from(refusal),
        },
    }
}

#[tactic(auto, unfolding(crate::specs::Handed::or_zero))]
pub fn vector_or_zero(answer: Result<V128, Refusal>) -> V128
    ensures { number result ≡ or_zero (vector_answer answer) }
{
    match answer {
        Ok(vector) => vector,
        Err(_) => V128 { lo: 0, hi: 0 },
    }
}

#[tactic(auto, unfolding(crate::specs::Handed::access_numbers))]
pub fn of_load(answer: Result<V128, AccessError>) -> Loaded
    ensures { (number result.vector, result.shortfall, result.refused) ≡ access_numbers (load_answer answer) }
{
    match answer {
        Ok(vector) => Loaded {
            vector,
            shortfall: 0,
            refused: 0,
        },
        Err(error) => Loaded {
            vector: V128 { lo: 0, hi: 0 },
            shortfall: error.shortfall(),
            refused: error.number(),
        },
    }
}

#[tactic(auto, unfolding(crate::specs::Handed::access_or_zero, crate::specs::Handed::or_zero))]
pub fn load_or_zero(loaded: Result<V128, AccessError>) -> V128
    ensures { number result ≡ access_or_zero (load_answer loaded) }
{
    // By `match`: with `unwrap_or` a load that widens takes half as much time again.
    match loaded {
        Ok(vector) => vector,
        Err(AccessError::Refused(_)) => V128 { lo: 0, hi: 0 },
        Err(AccessError::Past(_)) => V128 { lo: 0, hi: 0 },
    }
}

// Whatever memory the store leaves.
#[tactic(auto, unfolding(crate::specs::Handed::store_numbers))]
pub fn of_store(answer: Result<(), AccessError>) -> Stored
    ensures { (after : List ℕ) → (result.shortfall, result.refused, after) ≡ store_numbers (store_answer answer after) }
{
    match answer {
        Ok(()) => Stored {
            shortfall: 0,
            refused: 0,
        },
        Err(why) => Stored {
            shortfall: why.shortfall(),
            refused: why.number(),
        },
    }
}
