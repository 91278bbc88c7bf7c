// Rooms for what the stages are lent, each as long as the scene asks or longer.
ghost use Rattle.std.specs.Prelude.{◌≡◌, length};

// Backdrops, counts, the tally and references.
pub const TILES: usize = 16384;

pub const SLOTS: usize = 8192;

pub const SEGMENT_FLOATS: usize = 5 * SLOTS;

// Of commands.
pub const WORDS: usize = 268800;

pub const PIXELS: usize = 522240;

// Of the file.
pub const BYTES: usize = 1612816;

pub fn room<T: Copy, const N: usize>(zero: T) -> [T; N]
    ensures { N ≡ length result }
{
    [zero; N]
}
