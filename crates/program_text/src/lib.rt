// No code: the theorems on the text of step lists stand here, apart from the code that they speak of.
#![tactic(auto)]
