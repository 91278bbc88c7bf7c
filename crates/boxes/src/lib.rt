// The boxes of paths, made from their lines: for each path the tiles that its lines' ends lie in, a margin
// larger on every side, and first tiles one after another. docs/RULES.md, "Boxes". Added: it is in none of
// the files ported.
#![tactic(auto)]

pub mod call;
pub mod checks;
