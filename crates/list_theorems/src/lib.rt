// What holds of the lists that write_lists writes: fine never refuses them, and their pixels are those of
// painting the paths one after another. docs/THEOREMS.md, "Lists written". There is no code.

#![tactic(auto)]
