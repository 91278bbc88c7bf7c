// The rows that a segment with no y_edge goes through, mostly a few of the tile's sixteen. Which ones is guessed by the
// bits of the segment's ends, and the guess is tried at the rows beside: further from the segment than a row that
// gets nothing no row gets anything, so that the rest are passed over unseen.
ghost use Rattle.std.specs.Prelude.{◌≡◌, not, ◌<◌, T};
ghost use Rattle.std.specs.Float.Ieee.{is_nan};
ghost use Rattle.sides.specs.Tile.{tile_height};
ghost use Rattle.tile_rows.specs.Own.{guesses, above_of, below_of, edgeless_of, only_of};

use float32::{SHIFT, is_finite};
use one_row::Way;
use sides::TILE_HEIGHT;

// A guess is one of so many numbers, from 0 on: more than a tile has rows or columns.
pub const GUESSES: u32 = 32;

// Whether row yi lies above the segment: then so do the rows above it.
fn above(w: Way, yt: f32, yi: usize) -> bool
    requires { yi < tile_height }
    ensures { result ≡ above_of w yt yi }
{
    let y = w.y - (yt + (yi as f32));
    (1.0 <= y) & (1.0 <= y + w.dy)
}

// Whether row yi lies below the segment: then so do the rows below it.
fn below(w: Way, yt: f32, yi: usize) -> bool
    requires { yi < tile_height }
    ensures { result ≡ below_of w yt yi }
{
    let y = w.y - (yt + (yi as f32));
    (y <= 0.0) & (y + w.dy <= 0.0)
}

// Whether y_edge adds nothing to any row: nothing to the last, to which it adds most.
pub fn edgeless(w: Way, yt: f32) -> bool
    ensures { result ≡ edgeless_of w yt }
{
    let top = yt + ((TILE_HEIGHT - 1) as f32);
    is_finite(w.sign) & is_finite(w.edge) & (top - w.edge + 1.0 <= 0.0)
}

// A guess at the whole number nearest to y: SHIFT added, it stands in the last bits.
pub fn guess(y: f32) -> usize
    requires { T (not (is_nan y)) }
    ensures { result < guesses }
{
    (f32::to_bits(y + SHIFT) % GUESSES) as usize
}

// Whether no row but those from .. to gets anything of a segment that has no y_edge.
pub fn only(w: Way, yt: f32, from: usize, to: usize) -> bool
    requires { (from < guesses) × (to < guesses) }
    ensures { result ≡ only_of w yt from to }
{
    (from <= to)
        & (to <= TILE_HEIGHT)
        & ((from == 0) | above(w, yt, (from + (TILE_HEIGHT - 1)) % TILE_HEIGHT))
        & ((to == TILE_HEIGHT) | below(w, yt, to % TILE_HEIGHT))
}
