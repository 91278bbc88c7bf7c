// Our own count of all lines, from zeroed tiles, into working room that the caller lends: for each
// tile its count, then its backdrop with half of all words added, then for each line how many
// references are made before it. The references themselves are not kept. A refusal ends it, so acts
// are checked as they are done: nothing needs to be undone.
#![tactic(auto)]

mod lines;
mod steps;
mod words;

pub use lines::own_count;

// The word of backdrop 0.
pub const ZERO_BACK: u32 = 2147483648;
