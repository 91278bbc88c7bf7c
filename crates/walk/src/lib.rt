// The walk of a line over tiles, shared by counting and tiling: path_count.rs up to its clipping, and
// a step's tile. docs/RULES.md, "The walk of a line". A line is set up in `setup`.
#![tactic(auto)]

pub mod choose;
pub mod kinds;
pub mod step;
