// The library as C and Rust link it: every function of simd.rs that is carried over, under its name behind `gatulefo_`, the packed forms behind
// `gatulefo_packed_`, and what a caller of the whole needs. A vector goes in and comes out by value, as its two halves; a scalar as its bits; memory as a byte
// slice. Each promises what the library promises. `link/archive` makes the archive, link/gatulefo.h declares its functions for C, and link/rust is the
// interface of simd.rs over them.
#![tactic(auto)]

pub mod arithmetic;
pub mod bitwise;
pub mod calculate;
pub mod compare;
pub mod convert;
pub mod extract;
pub mod find;
pub mod float;
pub mod folding;
pub mod load;
pub mod load_value;
pub mod packed_form;
pub mod rearrange;
pub mod recordings;
pub mod reduce;
pub mod relaxed;
pub mod replace;
pub mod row;
pub mod scan;
pub mod shift;
pub mod shortfall;
pub mod splat;
pub mod store;
pub mod vector_row;
pub mod version;
pub mod widen;
