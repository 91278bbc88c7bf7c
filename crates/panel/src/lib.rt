// What all stages share: limits, refusal numbers, record widths, the three kinds of number, the
// running numbers, the answers, each record as it is lent, and the checks of the paths lent. docs/RULES.md, "How the records
// are lent" and "When the panel says no".
#![tactic(auto)]

pub mod checks;
pub mod kinds;
pub mod limits;
pub mod lines;
pub mod paints;
pub mod paths;
pub mod refs;
pub mod refusals;
pub mod segments;
pub mod slots;
pub mod widths;
