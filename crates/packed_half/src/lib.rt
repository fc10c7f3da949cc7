// A half of a vector, 64 bits, handled as one number: "A packed form takes sums, products, masks and shifts of the whole half and does not split it
// into lanes" (document 01, "The calculator"). Here stand the lanes of a half (specs/Half.antt), their laws, each once over the width (proofs/), and the masks
// that the families of packed forms share: packed_sum, packed_shift, packed_compare, packed_count, packed_reduce.
#![tactic(auto)]

pub mod masks;
