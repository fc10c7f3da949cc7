// What C and Rust are handed of an operation's answer: plain numbers, in registers or structs of C's layout.
#![tactic(auto)]

pub mod answer;
