// No code: what the numbers that `sizes` tells are worth. docs/THEOREMS.md, "Sizes".

#![tactic(auto)]
