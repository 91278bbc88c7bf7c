// That a line in a box with a margin is never refused with 10: definitions in specs/, laws in
// proofs/, and no code.

#![tactic(auto)]
