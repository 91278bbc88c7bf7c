// The last colour of a screen tile, laid over its rows as they are packed into the screen's pixels.
#![tactic(auto)]

ghost use Rattle.std.specs.Prelude.{◌≡◌, ◌+◌, ◌*◌, ◌≤◌, ◌<◌, length};
ghost use Rattle.lists.specs.Grid.{mapi, within};
ghost use Rattle.panel.specs.Limits.{most_tiles};
ghost use Rattle.sides.specs.Tile.{tile_width, tile_height, tile_size};
ghost use Rattle.colours.specs.Colour.{composite_of};
ghost use Rattle.colours.specs.Layer.{meant, NoMinus};
ghost use Rattle.screen_rows.specs.Rows.{row_at, from_list, put_tile};
ghost use Rattle.last_colour.specs.Last.{from_one, from_each};

use colours::layer::all_level;
use colours::{over, pack};
use screen_rows::{fill_row, put_words};
use sides::{TILE_HEIGHT, TILE_SIZE, TILE_WIDTH};

// Row y of the tile, where it is flat: the colour fg over its one colour, pixel by pixel by the area, packed at once.
pub fn put_slope(
    pixels: &mut [u32],
    width: usize,
    tx: usize,
    ty: usize,
    y: usize,
    one: [f32; 4],
    fg: [f32; 4],
    area: &[f32],
)
    requires { (tx < most_tiles) × (ty < most_tiles) × (y < tile_height) × (tile_width * tx + tile_width ≤ width) × (row_at width tx ty y + tile_width ≤ length pixels.old)
        × (length area.now ≡ tile_size) }
    ensures { pixels.new ≡ mapi (within (row_at width tx ty y) (row_at width tx ty y + tile_width) (from_one area.now fg one width)) pixels.old }
{
    let first = TILE_WIDTH * y;
    put_words(
        pixels,
        width,
        tx,
        ty,
        y,
        |x| pack(over(one, fg, area[first + x])),
    )
}

// Row y of the tile, where it isn't flat: the colour fg over each pixel's own, by the area, packed at once.
pub fn put_each(
    pixels: &mut [u32],
    width: usize,
    tx: usize,
    ty: usize,
    y: usize,
    rgba: &[[f32; 4]; TILE_SIZE],
    fg: [f32; 4],
    area: &[f32],
)
    requires { (tx < most_tiles) × (ty < most_tiles) × (y < tile_height) × (tile_width * tx + tile_width ≤ width) × (row_at width tx ty y + tile_width ≤ length pixels.old)
        × (length area.now ≡ tile_size) }
    ensures { pixels.new ≡ mapi (within (row_at width tx ty y) (row_at width tx ty y + tile_width) (from_each area.now fg rgba.now width)) pixels.old }
{
    let first = TILE_WIDTH * y;
    put_words(
        pixels,
        width,
        tx,
        ty,
        y,
        |x| pack(over(rgba[first + x], fg, area[first + x])),
    )
}

// Row y of the tile, with the colour fg laid over it, whose pixels are not stored as colours before they are packed.
// Of a flat row the first pixel stands for all; where its areas are all the same too, it has one word.
pub fn put_over(
    pixels: &mut [u32],
    width: usize,
    tx: usize,
    ty: usize,
    y: usize,
    rgba: &[[f32; 4]; TILE_SIZE],
    flat: &[bool; TILE_HEIGHT],
    fg: [f32; 4],
    area: &[f32],
)
    requires { (tx < most_tiles) × (ty < most_tiles) × (y < tile_height) × (tile_width * tx + tile_width ≤ width) × (row_at width tx ty y + tile_width ≤ length pixels.old)
        × (length rgba.now ≡ tile_size) × (length area.now ≡ tile_size) × NoMinus area.now }
    ensures { pixels.new
        ≡ mapi (within (row_at width tx ty y) (row_at width tx ty y + tile_width) (from_list (composite_of area.now fg (meant flat.now rgba.now)) width)) pixels.old }
{
    let i = TILE_WIDTH * y;
    if flat[y] {
        let one = rgba[i];
        if all_level(area, i) {
            fill_row(pixels, width, tx, ty, y, pack(over(one, fg, area[i])))
        } else {
            put_slope(pixels, width, tx, ty, y, one, fg, area)
        }
    } else {
        put_each(pixels, width, tx, ty, y, rgba, fg, area)
    }
}

// All rows of the tile, with the colour fg laid over them.
pub fn put_last(
    pixels: &mut [u32],
    width: usize,
    tx: usize,
    ty: usize,
    rgba: &[[f32; 4]; TILE_SIZE],
    flat: &[bool; TILE_HEIGHT],
    fg: [f32; 4],
    area: &[f32],
)
    requires { (tx < most_tiles) × (ty < most_tiles) × (tile_width * tx + tile_width ≤ width) × (width * (tile_height * ty + tile_height) ≤ length pixels.old) × (length rgba.now ≡ tile_size)
        × (length area.now ≡ tile_size) × NoMinus area.now }
    ensures { pixels.new
        ≡ put_tile (from_list (composite_of area.now fg (meant flat.now rgba.now)) width) width tx ty pixels.old }
{
    for y in 0..TILE_HEIGHT {
        put_over(pixels, width, tx, ty, y, rgba, flat, fg, area);
    }
}
