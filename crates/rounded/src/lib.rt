// How rounded sums, products and quotients of floats behave: their order, which of them are numbers,
// and what they come to at the ends. Laws in proofs/, and no code.

#![tactic(auto)]
