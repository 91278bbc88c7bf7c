// The steps of a walk that may leave its path's box: checked, the first of them noted, then written. A line's row marks go
// with them. What is checked writes nothing but notes, so that a refused line changes nothing.
#![tactic(auto)]

mod checks;
mod line;
mod notes;
mod writes;

pub use line::{check_line, write_line};
pub use writes::write_notes;
