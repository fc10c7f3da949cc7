// The calculator of document 01: 16 registers, one scalar, and steps of 32 bytes, each decided, judged and done.
#![tactic(auto)]

pub mod run;
