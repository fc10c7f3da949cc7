// Instructions by family, in words alone: what an instruction makes of its operands (specs/Family.antt), and that a number past the arms of a match is of no
// instruction of the family (proofs/Others.antt). The code stands in operation_binary and operation.
#![tactic(auto)]
