// What the marker finder reports and what a correlator made of vector instructions counts are the same numbers (specs/ and proofs/). No code.
#![tactic(auto)]
