// How much lines and paths need, before anything is lent for them: tiles, references, and command words
// for a screen. docs/RULES.md, "Sizes". Added: it is in none of the files ported.
#![tactic(auto)]

mod call;
mod lines;
mod paths;

pub use call::sizes;

// What is needed: tiles, references, and command words.
#[derive(Clone, Copy, PartialEq, Eq)]
pub struct Room {
    pub tiles: u32,
    pub refs: u32,
    pub words: u32,
}
