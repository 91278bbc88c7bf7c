// path_count.rs: the tiles that lines pass are counted, a reference for each step, backdrops marked.
// A line is checked first and then written, so that a refused line changes nothing. A short one is counted as it goes, and
// taken back where a step doesn't pass. Lines within one tile are counted run by run. Here are the batch and the call: a
// line is counted in `one_line`, a run in `short_runs`.
#![tactic(auto)]

mod call;
mod kinds;
mod runs;

pub use call::{count, count_batch, count_checked};
pub use kinds::Stopped;
