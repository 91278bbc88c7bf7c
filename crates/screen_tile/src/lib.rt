// A screen tile: its commands run on colours of its own, which go to the screen only where none is refused.
#![tactic(auto)]

ghost use Rattle.std.specs.Prelude.{◌≡◌, ◌+◌, ◌*◌, ◌≤◌, ◌<◌, length};
ghost use Rattle.panel.specs.Limits.{most_tiles};
ghost use Rattle.panel.specs.Verdict.{verdict_told};
ghost use Rattle.sides.specs.Tile.{tile_width, tile_height, tile_size};
ghost use Rattle.screen_tile.specs.Tile.{no_colour, ends_at, tile_pixels};

use colours::{colour, pack};
use commands::numbers::{LIST_START, TILE_WORDS};
use last_colour::put_last;
use on_pixels::{begin, same_area};
use panel::refusals::Refusal;
use run_list::{ends_at, run};
use screen_rows::{all_flat, fill_tile, put_tile, start_rows};
use sides::TILE_SIZE;

// Room for a tile's colours.
pub fn no_colour() -> [[f32; 4]; TILE_SIZE]
    ensures { result ≡ no_colour }
{
    [[0.0f32; 4]; TILE_SIZE]
}

// Tile t, in column tx and row ty of tiles, `width` pixels to a row of the screen. Until its first FILL it
// has one colour: where END comes first, one pixel is packed for all. Its colours are worked on in `rgba`, whatever
// that holds; a COLOR that END follows is laid over them as they are packed.
pub fn tile(
    words: &[u32],
    segments: &[f32],
    t: usize,
    width: usize,
    tx: usize,
    ty: usize,
    rgba: &mut [[f32; 4]; TILE_SIZE],
    pixels: &mut [u32],
) -> Result<(), Refusal>
    requires { (t < most_tiles) × (tx < most_tiles) × (ty < most_tiles) × (tile_width * tx + tile_width ≤ width) × (width * (tile_height * ty + tile_height) ≤ length pixels.old)
        × (length rgba.old ≡ tile_size) }
    ensures { (verdict_told result ≡ ends_at words.now segments.now t) ×
        (pixels.new ≡ tile_pixels words.now segments.now t width tx ty pixels.old) × (length rgba.new ≡ tile_size) }
{
    let mut px = [0.0f32; 4];
    let start = TILE_WORDS * t + LIST_START;
    let o = begin(words, segments, start, &mut px);
    if ends_at(words, o.at) {
        fill_tile(pixels, width, tx, ty, pack(px));
        return Ok(());
    }
    start_rows(rgba, px);
    let mut flat = all_flat();
    let mut area = same_area(o.area);
    let last = run(words, segments, o.at, o.count, &mut area, rgba, &mut flat)?;
    match last {
        None => put_tile(pixels, width, tx, ty, rgba, &flat),
        Some(word) => put_last(pixels, width, tx, ty, rgba, &flat, colour(word), &area),
    }
    Ok(())
}
