// What lines are worth that the call `outlines` answers with done. There is no code: what is said stands in
// specs/, how it is proved in proofs/.

#![tactic(auto)]
