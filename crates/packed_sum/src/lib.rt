// Sums of the lanes of a half: add, subtract, negate, and the rounding average.
#![tactic(auto)]

pub mod arithmetic;
pub mod average;
