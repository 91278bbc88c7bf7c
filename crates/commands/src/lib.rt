// A screen tile's commands: their words, written and read, what each asks for and where the next one
// stands. docs/RULES.md, "Coverage and colour" and refusals 13 to 15; fine.rs, lines 128 to 171. What
// they do to pixels is defined here (specs/Pixel.antt) and carried out in `on_pixels` and `run_list`.
#![tactic(auto)]

pub mod numbers;
pub mod put;
pub mod steps;
