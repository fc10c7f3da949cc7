// Definitions from the WebAssembly Core Specification 2.0 (specs/) and the laws of lanes (proofs/). No code.
#![tactic(auto)]
