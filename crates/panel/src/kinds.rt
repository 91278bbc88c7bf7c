// The kinds of number, and what goes by value between the stages.
ghost use Rattle.std.specs.Prelude.{◌≡◌, ◌+◌, ◌<◌, ◌^◌};
ghost use Rattle.panel.specs.Kinds.{stepped_of, number_of, item_of, refused_at};
ghost use Rattle.panel.specs.Answer.{answer_told};

use super::refusals::{DONE, Refusal};

// A line's number, a tile's and a slot's: three kinds that can't be mixed.
#[derive(Clone, Copy)]
pub struct LineNo(pub u32);

#[derive(Clone, Copy)]
pub struct TileNo(pub u32);

#[derive(Clone, Copy)]
pub struct SlotNo(pub u32);

// A path's box, in tiles, and its first tile. The right and bottom edges are outside.
#[derive(Clone, Copy)]
pub struct Path {
    pub x0: u32,
    pub y0: u32,
    pub x1: u32,
    pub y1: u32,
    pub first: u32,
}

// Lines so far, and references so far.
#[derive(Clone, Copy)]
pub struct Running {
    pub lines: u32,
    pub refs: u32,
}

impl Running {
    // One line more, with n references.
    pub fn stepped(mut self, n: u32) -> Self
        requires { (self.lines + 1 < 2 ^ 32) × (self.refs + n < 2 ^ 32) }
        ensures { result ≡ stepped_of self n }
    {
        self.lines = self.lines + 1;
        self.refs = self.refs + n;
        self
    }
}

// What a call refuses: why, and the item's number (the path's, the reference's, the screen tile's), 0 where no item is
// to blame. A call that has nothing to hand back answers `Result<(), Refused>`.
#[derive(Clone, Copy, PartialEq, Eq)]
pub struct Refused {
    pub why: Refusal,
    pub item: u32,
}

// A check of what is lent blames no item.
impl From<Refusal> for Refused {
    ghost from_gives = { λ why r. r ≡ refused_at why 0 };

    fn from(why: Refusal) -> Self {
        why.at(0)
    }
}

impl Refusal {
    // This refusal, of an item.
    pub fn at(self, item: u32) -> Refused
        ensures { result ≡ refused_at self item }
    {
        Refused { why: self, item }
    }
}

// An answer's number: 0, or the refusal's.
pub fn number(a: Result<(), Refused>) -> u32
    ensures { result ≡ number_of (answer_told a) }
{
    match a {
        Ok(()) => DONE,
        Err(refused) => refused.why.number(),
    }
}

// The item's number of a refusal, and 0 where nothing is refused.
pub fn item(a: Result<(), Refused>) -> u32
    ensures { result ≡ item_of (answer_told a) }
{
    match a {
        Ok(()) => 0,
        Err(refused) => refused.item,
    }
}
