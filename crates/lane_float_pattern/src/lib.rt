// Float patterns of both formats, in laws alone: fields and digits, the rounding rule, whole numbers, exact sums. Each law is stated once over the format, and
// the functions of one lane cite it. No code stands here.
#![tactic(auto)]
