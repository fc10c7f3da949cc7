// The rules of the calculator (specs/Definition.antt): what a step and a run give. Here stand the fields of a step and the shapes that its operation may have;
// what is judged of a step stands in judging, what limits a run in limits, and the numbers beside registers in numbering.
#![tactic(auto)]

pub mod fields;
pub mod shape;
