// A recount of one path: where one gauge moves, its beam's tiles are counted again and no other's.
// docs/RULES.md, "A recount". A line's check and write are counting's own.
#![tactic(auto)]

mod call;
mod checks;

pub use call::recount;
