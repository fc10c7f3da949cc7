// Theorems on the calculator's definition (proofs/); it has no code of its own.
#![tactic(auto)]
