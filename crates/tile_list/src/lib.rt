// One screen tile's list: how long it is, and its words. docs/RULES.md, "Command lists". Added: it is in
// none of the files ported.
#![tactic(auto)]

pub mod lay;
pub mod weigh;
