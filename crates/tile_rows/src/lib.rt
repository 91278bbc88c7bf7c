// The rows of a tile that a segment goes through: the numbers of all sixteen at once, and which of them get nothing.
#![tactic(auto)]

pub mod own;
pub mod rows;
