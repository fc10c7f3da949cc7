// Theorems on float patterns (proofs/): what rounding gives is nearest, and equal numbers have one pattern. It has no code of its own.
#![tactic(auto)]
