// What holds of a drawing, from lines to pixels in one call: laws, and no code.

#![tactic(auto)]
