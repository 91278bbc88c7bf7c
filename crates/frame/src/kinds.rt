// What a frame answers.
ghost use Rattle.std.specs.Prelude.{◌≡◌};
ghost use Rattle.frame.specs.Frame.{stage_no};
ghost use Rattle.frame.specs.Framed.{refused_by};

use panel::kinds::{Refused, Running};
use panel::refusals::Refusal;

// The parts of a frame, in order, with their numbers on paper: the checks of what is lent, then the four stages. 0 is
// kept for none.
#[derive(Clone, Copy, PartialEq, Eq)]
pub enum Stage {
    Lent = 1,
    Count = 2,
    Backdrop = 3,
    HandOut = 4,
    Tile = 5,
}

// A frame that is refused: by which part, why, and the item's number. Lines and references counted are told as those
// of a done one are, which has them as its answer.
#[derive(Clone, Copy)]
pub struct FrameRefused {
    pub stage: Stage,
    pub why: Refusal,
    pub item: u32,
    pub running: Running,
}

impl Stage {
    // What this part refuses, with the lines and references counted by then.
    pub(crate) fn refuses(self, refused: Refused, running: Running) -> FrameRefused
        ensures { result ≡ refused_by self refused running }
    {
        FrameRefused {
            stage: self,
            why: refused.why,
            item: refused.item,
            running,
        }
    }
}

// The part's number on paper.
pub fn stage_no(at: Stage) -> u32
    ensures { result ≡ stage_no at }
{
    at as u32
}
