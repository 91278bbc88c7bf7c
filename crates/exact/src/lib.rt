// Whole numbers in `f32`s, exactly: definitions in specs/, laws in proofs/, and no code. What the
// walk's code leans on, so that no sum wraps and no tile is missed by rounding.

#![tactic(auto)]
