// A path's box, from the words that say how far its lines' ends reach: its edges with the margin, its tiles;
// and the records of all paths. docs/RULES.md, "Boxes". Added: it is in none of the files ported.
#![tactic(auto)]

pub mod edges;
pub mod records;
