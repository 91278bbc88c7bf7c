// What a drawing answers.
ghost use Rattle.std.specs.Prelude.{◌≡◌};
ghost use Rattle.paint.specs.Parts.{part_no};
ghost use Rattle.paint.specs.Drawn.{refused_by, drawn_by};

use frame::{FrameRefused, Stage, stage_no};
use panel::kinds::{Refused, Running};
use panel::refusals::Refusal;

// The parts of a drawing, in order: those of its frame, then the lists and fine.
#[derive(Clone, Copy, PartialEq, Eq)]
pub enum Part {
    Frame(Stage),
    Lists,
    Fine,
}

// A drawing that is refused: by which part, why, and the item's number. Lines and references counted are told as those
// of a done one are, which has them as its answer.
#[derive(Clone, Copy)]
pub struct DrawRefused {
    pub part: Part,
    pub why: Refusal,
    pub item: u32,
    pub running: Running,
}

impl Part {
    // The part's number on paper: 1 to 5 as a frame has them, then 6 and 7. 0 is kept for none.
    pub fn number(self) -> u32
        ensures { result ≡ part_no self }
    {
        match self {
            Part::Frame(stage) => stage_no(stage),
            Part::Lists => 6,
            Part::Fine => 7,
        }
    }

    // What this part refuses, with the lines and references counted by then.
    pub fn refuses(self, refused: Refused, running: Running) -> DrawRefused
        ensures { result ≡ refused_by self refused running }
    {
        DrawRefused {
            part: self,
            why: refused.why,
            item: refused.item,
            running,
        }
    }
}

// A frame that refuses ends its drawing.
impl From<FrameRefused> for DrawRefused {
    ghost from_gives = { λ f d. d ≡ drawn_by f };

    fn from(f: FrameRefused) -> Self {
        DrawRefused {
            part: Part::Frame(f.stage),
            why: f.why,
            item: f.item,
            running: f.running,
        }
    }
}
