// No code: what a program writes whose standard output is a file's bytes, those or what it says on standard error, stands here for the programs that do so.
#![tactic(auto)]
