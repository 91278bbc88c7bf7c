// How a tile's word stands for its first slot: hand-out writes it, tiling and the lists' writer read it.
ghost use Rattle.std.specs.Prelude.{◌≡◌, ◌<◌, ◌^◌};
ghost use Rattle.panel.specs.Slots.{not32, skips};

// A tile's word below this was handed no slot: its NOT is negative as an i32.
const HANDED_FROM: u32 = 0x8000_0000;

pub fn skips(word: u32) -> bool
    ensures { result ≡ skips word }
{
    word < HANDED_FROM
}

// The word of a tile whose first slot is this; and the first slot of a tile with this word.
pub fn flipped(x: u32) -> u32
    ensures { result ≡ not32 x }
{
    !x
}
