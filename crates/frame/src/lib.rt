// One call for a frame: all lines counted into cleared tiles, the backdrops summed, the slots handed
// out, all references tiled. docs/RULES.md, "A frame". Each stage is its own public call; a frame
// ends at the first that refuses, and what came before it stands.
#![tactic(auto)]

mod call;
mod kinds;
mod stages;

pub use call::{check_lent, frame};
pub use kinds::{FrameRefused, Stage, stage_no};
