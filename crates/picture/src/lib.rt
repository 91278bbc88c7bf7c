// The picture as a function of the lines: what frame, lists and fine leave on the screen, said with no
// memory at all. There is no code here.

#![tactic(auto)]
