// How far a rounded number lies from the exact one, and how far the walk's numbers can go:
// definitions in specs/, laws in proofs/, and no code.

#![tactic(auto)]
