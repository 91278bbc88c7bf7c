// The theorems the panel is bought for, over the definitions that the public promises cite:
// docs/THEOREMS.md. Their words stand in specs/, their proofs in proofs/; there is no code.

#![tactic(auto)]
