// Whether another's count of our lines, with its references and slots, is as good as our own:
// docs/RULES.md, "A check of another's tables".
#![tactic(auto)]

mod backs;
mod call;
mod keys;
mod kinds;
mod refs;
mod tables;

pub use call::check_tiles;
pub use kinds::Fault;
