// What C and Rust are handed of an answer that is not an operation's: of a step and a run, of the marker finder, of the recorder and a replay, of mending.
// Plain numbers, in structs of C's layout.
#![tactic(auto)]

pub mod calculation;
pub mod mended;
pub mod position;
pub mod recorded;
