// The lines that path data draws: counted, and written. specs/Outline.antt says which they are.
#![tactic(auto)]

pub mod count;
pub mod steps;
pub mod strokes;
pub mod write;
