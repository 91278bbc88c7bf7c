// What holds of every call that a panel makes, exported ones too: its promise admits one answer only, and
// no cheat meets it. docs/THEOREMS.md, "One answer only" and "Refusals are exact". There is no code.

#![tactic(auto)]
