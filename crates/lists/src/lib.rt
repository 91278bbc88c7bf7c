// Lists, with no panel in them: walks that can refuse, batches, sums, occurrences, cells that are
// written one by one, grids. The definitions and their laws stand in specs/; there is no code.

#![tactic(auto)]
