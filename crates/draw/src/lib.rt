// One call from lines to pixels: a frame, the lists of its screen, and fine over all of it. docs/RULES.md,
// "From lines to pixels". Each part is its own public call; it ends at the first that refuses, and what
// came before it stands.
#![tactic(auto)]

mod call;

pub use call::draw;
