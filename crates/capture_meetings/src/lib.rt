// Every position of a capture at which the marker is met: the definition (specs/) and what a station can rely on, however the capture is cut (proofs/). No
// code.
#![tactic(auto)]
