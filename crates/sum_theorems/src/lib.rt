// How large a pixel's summed area can be: for segments that a fill takes it is a NaN or far below infinity, so
// even-odd coverage lies in 0..1 or is a NaN. docs/THEOREMS.md, section 12. There is no code.

#![tactic(auto)]
