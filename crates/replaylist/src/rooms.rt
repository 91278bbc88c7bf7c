// Rooms for the slices that are lent, longer than the longest of any list, and how many elements of
// one a row takes up: all of the room, where it has too few.
ghost use Rattle.std.specs.Prelude.{◌≡◌, length as length_of};
ghost use Rattle.replaylist.specs.Counts.{Counts};

use super::places::Row;
use hexlist::rows::length;
use hexlist::words::Element;

pub const WORDS: usize = 512;

// Of commands.
pub const LONG_WORDS: usize = 16384;

pub const PIXELS: usize = 2048;

pub const INTS: usize = 512;

pub const FLOATS: usize = 1024;

pub fn room<T: Element, const N: usize>() -> [T; N]
    ensures { N ≡ length_of result }
{
    [T::of_word(0); N]
}

pub fn taken<T>(row: Row, room: &[T]) -> usize
    ensures { Counts result room.now }
{
    length(row.code).min(room.len())
}
