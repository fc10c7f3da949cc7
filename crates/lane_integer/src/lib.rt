// One lane: numbers of 8, 16, 32 and 64 bits. Each function is proved equal to the standard's operation of its name, at every width at once.
#![tactic(auto)]

pub mod arithmetic;
pub mod choose;
pub mod compare;
mod lane;

pub use lane::Lane;
