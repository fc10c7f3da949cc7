// Field recordings (document 02, order 8): a recording replayed, and a list recorded.
#![tactic(auto)]

pub mod account;
pub mod recorder;
pub mod replay;
