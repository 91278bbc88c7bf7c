// A line's acts on what is lent: marks on backdrops and visits of tiles, docs/RULES.md "The walk of a
// line", held against 8 and 11. The walk that says which acts a line has is not known here.
#![tactic(auto)]

mod marks;
mod rows;
mod visits;

pub use marks::{leaves, mark, mark_if, next_if};
pub use rows::{Rows, check_rows, write_rows};
pub use visits::visit;
