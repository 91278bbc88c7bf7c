// The screen: its tiles in order, each by its commands, on the pixels lent. docs/RULES.md, "Coverage
// and colour" and refusals 1, 2, 13 to 16; fine_main of fine.rs, lines 112 to 182.
#![tactic(auto)]

ghost use Rattle.std.specs.Prelude.{◌≡◌, ◌*◌, ◌≤◌, length};
ghost use Rattle.panel.specs.Checks.{first_no};
ghost use Rattle.panel.specs.Verdict.{verdict_told};
ghost use Rattle.panel.specs.Answer.{answer_told};
ghost use Rattle.panel.specs.Limits.{most_tiles};
ghost use Rattle.sides.specs.Tile.{tile_width, tile_height};
ghost use Rattle.fine.specs.Fine.{fine_checks, shown, tiles_of, shown_of, FineMet};

use panel::kinds::Refused;
use panel::limits::MOST_TILES;
use panel::refusals::Refusal;
use panel::widths::SEGMENT_FLOATS;
use screen_tile::{no_colour, tile};
use sides::{TILE_HEIGHT, TILE_WIDTH};

// What is checked first: whole segments and a range of screen tiles (1), not too many of those (2),
// then the width and the pixels (16). 16 * width * rows can pass 64 bits, so the pixels are divided.
fn check_screen(
    segments: usize,
    width: u32,
    cols: u32,
    rows: u32,
    from: u32,
    to: u32,
    pixels: usize,
) -> Result<(), Refusal>
    ensures { verdict_told result ≡ first_no (fine_checks segments width cols rows from to pixels) }
{
    if segments % SEGMENT_FLOATS != 0 {
        return Err(Refusal::NotWhole);
    }
    if from > to {
        return Err(Refusal::NotWhole);
    }
    let n = (cols as u64) * (rows as u64);
    if to as u64 > n {
        return Err(Refusal::NotWhole);
    }
    if n > MOST_TILES as u64 {
        return Err(Refusal::TooMany);
    }
    if TILE_WIDTH * (cols as usize) > width as usize {
        return Err(Refusal::BadScreen);
    }
    if (width as usize) * (rows as usize) > pixels / TILE_HEIGHT {
        return Err(Refusal::BadScreen);
    }
    Ok(())
}

// The tiles from `from` up to `to`, in order, up to the first that is refused. One local has the colours of one
// tile after the other.
pub fn tiles(
    words: &[u32],
    segments: &[f32],
    width: usize,
    cols: usize,
    rows: usize,
    from: u32,
    to: u32,
    pixels: &mut [u32],
) -> Result<(), Refused>
    requires { (from ≤ to) × (to ≤ cols * rows) × (cols * rows ≤ most_tiles) × (tile_width * cols ≤ width) × (width * (tile_height * rows) ≤ length pixels.old) }
    ensures { shown (answer_told result) pixels.new ≡ shown_of (tiles_of words.now segments.now width cols from to pixels.old) }
{
    let mut rgba = no_colour();
    for t in from..to {
        let n = t as usize;
        let tx = n % cols;
        let ty = n / cols;
        if let Err(why) = tile(words, segments, n, width, tx, ty, &mut rgba, pixels) {
            return Err(why.at(t));
        }
    }
    Ok(())
}

// The public call: the screen tiles from `from` up to `to`, of cols times rows, `width` pixels to a
// row of the screen. The first tile refused stops it, and its pixels and later ones stay.
pub fn fine(
    words: &[u32],
    segments: &[f32],
    width: u32,
    cols: u32,
    rows: u32,
    from: u32,
    to: u32,
    pixels: &mut [u32],
) -> Result<(), Refused>
    ensures { FineMet words.now segments.now width cols rows from to pixels.old (answer_told result) pixels.new }
{
    check_screen(segments.len(), width, cols, rows, from, to, pixels.len())?;
    tiles(
        words,
        segments,
        width as usize,
        cols as usize,
        rows as usize,
        from,
        to,
        pixels,
    )
}
