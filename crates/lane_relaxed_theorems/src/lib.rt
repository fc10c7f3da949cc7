// No code: theorems. What the relaxed instructions give is `standard/specs/Relaxed.antt`, what WebAssembly 3.0 allows is `specs/Allowed.antt`, and that the
// first is among the second, but for dots that meet four −128, is `proofs/Theorems.antt`.
#![tactic(auto)]
