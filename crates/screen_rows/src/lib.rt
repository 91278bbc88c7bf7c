// A screen tile's rows, flat or not: how their colours start, and how they are packed into the screen's pixels.
#![tactic(auto)]

ghost use Rattle.std.specs.Prelude.{ℕ, ◌≡◌, ◌+◌, ◌*◌, ◌≤◌, ◌<◌, length};
ghost use Rattle.lists.specs.Grid.{mapi, within};
ghost use Rattle.panel.specs.Limits.{most_tiles};
ghost use Rattle.sides.specs.Tile.{tile_width, tile_height, tile_size};
ghost use Rattle.colours.specs.Layer.{meant};
ghost use Rattle.commands.specs.Alike.{same_colour};
ghost use Rattle.screen_rows.specs.Rows.{all_flat, one_word, row_at, from_list, put_tile, GivesAt};

use colours::pack;
use sides::{TILE_HEIGHT, TILE_SIZE, TILE_WIDTH};

// A flag for each row: all are flat.
pub fn all_flat() -> [bool; TILE_HEIGHT]
    ensures { result ≡ all_flat }
{
    [true; TILE_HEIGHT]
}

// One colour for all: the first pixel of each row has it, and every row is flat.
pub fn start_rows(rgba: &mut [[f32; 4]; TILE_SIZE], px: [f32; 4])
    requires { length rgba.old ≡ tile_size }
    ensures { (length rgba.new ≡ tile_size) × (meant all_flat rgba.new ≡ same_colour px) }
{
    for y in 0..TILE_HEIGHT {
        let at = TILE_WIDTH * y;
        rgba[at] = px;
    }
}

// Row y of the tile: in each of its pixels the word that `word` gives for the pixel's column.
pub fn put_words<F: Fn(usize) -> u32>(
    pixels: &mut [u32],
    width: usize,
    tx: usize,
    ty: usize,
    y: usize,
    word: F,
)
    requires room { (tx < most_tiles) × (ty < most_tiles) × (y < tile_height) × (tile_width * tx + tile_width ≤ width) × (row_at width tx ty y + tile_width ≤ length pixels.old) }
    requires callable { (x : ℕ) → x < tile_width → F.pre word x }
    ensures { (new : ℕ → ℕ → ℕ) → GivesAt (F.post word) (row_at width tx ty y) new
        → pixels.new ≡ mapi (within (row_at width tx ty y) (row_at width tx ty y + tile_width) new) pixels.old }
{
    let base = width * (TILE_HEIGHT * ty + y) + TILE_WIDTH * tx;
    for x in 0..TILE_WIDTH {
        pixels[base + x] = word(x);
    }
}

// Row y of the tile, one word in each pixel.
pub fn fill_row(pixels: &mut [u32], width: usize, tx: usize, ty: usize, y: usize, word: u32)
    requires { (tx < most_tiles) × (ty < most_tiles) × (y < tile_height) × (tile_width * tx + tile_width ≤ width) × (row_at width tx ty y + tile_width ≤ length pixels.old) }
    ensures { pixels.new ≡ mapi (within (row_at width tx ty y) (row_at width tx ty y + tile_width) (one_word word)) pixels.old }
{
    put_words(pixels, width, tx, ty, y, |_x| word)
}

// Row y of the tile in column tx and row ty of tiles, packed pixel by pixel.
pub fn put_row(
    pixels: &mut [u32],
    width: usize,
    tx: usize,
    ty: usize,
    y: usize,
    rgba: &[[f32; 4]; TILE_SIZE],
)
    requires { (tx < most_tiles) × (ty < most_tiles) × (y < tile_height) × (tile_width * tx + tile_width ≤ width) × (row_at width tx ty y + tile_width ≤ length pixels.old) }
    ensures { pixels.new ≡ mapi (within (row_at width tx ty y) (row_at width tx ty y + tile_width) (from_list rgba.now width)) pixels.old }
{
    let first = TILE_WIDTH * y;
    put_words(pixels, width, tx, ty, y, |x| pack(rgba[first + x]))
}

// Row y of the tile, flat or not. Of a flat row the first pixel stands for all.
pub fn put_any(
    pixels: &mut [u32],
    width: usize,
    tx: usize,
    ty: usize,
    y: usize,
    rgba: &[[f32; 4]; TILE_SIZE],
    flat: &[bool; TILE_HEIGHT],
)
    requires { (tx < most_tiles) × (ty < most_tiles) × (y < tile_height) × (tile_width * tx + tile_width ≤ width) × (row_at width tx ty y + tile_width ≤ length pixels.old)
        × (length rgba.now ≡ tile_size) }
    ensures { pixels.new
        ≡ mapi (within (row_at width tx ty y) (row_at width tx ty y + tile_width) (from_list (meant flat.now rgba.now) width)) pixels.old }
{
    if flat[y] {
        fill_row(pixels, width, tx, ty, y, pack(rgba[TILE_WIDTH * y]))
    } else {
        put_row(pixels, width, tx, ty, y, rgba)
    }
}

// All rows of the tile. This loop and the two like it, in fill_tile and in put_last of last_colour, stay apart: a
// function for them would take the row as a closure that changes the pixels, which is no plainer than three lines.
pub fn put_tile(
    pixels: &mut [u32],
    width: usize,
    tx: usize,
    ty: usize,
    rgba: &[[f32; 4]; TILE_SIZE],
    flat: &[bool; TILE_HEIGHT],
)
    requires { (tx < most_tiles) × (ty < most_tiles) × (tile_width * tx + tile_width ≤ width) × (width * (tile_height * ty + tile_height) ≤ length pixels.old) × (length rgba.now ≡ tile_size) }
    ensures { pixels.new ≡ put_tile (from_list (meant flat.now rgba.now) width) width tx ty pixels.old }
{
    for y in 0..TILE_HEIGHT {
        put_any(pixels, width, tx, ty, y, rgba, flat);
    }
}

// All rows of the tile.
pub fn fill_tile(pixels: &mut [u32], width: usize, tx: usize, ty: usize, word: u32)
    requires { (tx < most_tiles) × (ty < most_tiles) × (tile_width * tx + tile_width ≤ width) × (width * (tile_height * ty + tile_height) ≤ length pixels.old) }
    ensures { pixels.new ≡ put_tile (one_word word) width tx ty pixels.old }
{
    for y in 0..TILE_HEIGHT {
        fill_row(pixels, width, tx, ty, y, word);
    }
}
