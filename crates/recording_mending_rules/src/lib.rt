// Mending recordings (document 02, order 10), in words alone: what mending makes of a file (specs/Definition.antt), and the theorems that one flipped bit comes
// out as sent and two are never altered (proofs/Recordings.antt). The code stands in mending.
#![tactic(auto)]
