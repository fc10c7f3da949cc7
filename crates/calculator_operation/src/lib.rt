// An operation by the standard's number, lane by lane: a function for each family, by the methods of the vector. By numbers and not by an enum, since the
// definition's table is by numbers: an enum would be the standard's names once more, with a list of its numbers in specs/ to be believed beside the table.
#![tactic(auto)]

pub mod extract;
pub mod given;
pub mod replace;
pub mod shift;
pub mod splat;
pub mod ternary;
pub mod test;
pub mod unary;
