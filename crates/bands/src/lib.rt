// A band of the screen: the tiles of some of its rows, on pixels of the band's own, so that several
// can be drawn at once. docs/RULES.md, "Bands". Each tile is fine's own; only its row is counted
// from the band's first.
#![tactic(auto)]

ghost use Rattle.std.specs.Prelude.{◌≡◌, ◌+◌, ◌*◌, ◌≤◌, length};
ghost use Rattle.panel.specs.Checks.{first_no};
ghost use Rattle.panel.specs.Verdict.{verdict_told};
ghost use Rattle.panel.specs.Answer.{answer_told};
ghost use Rattle.panel.specs.Limits.{most_tiles};
ghost use Rattle.sides.specs.Tile.{tile_width, tile_height};
ghost use Rattle.fine.specs.Fine.{shown, shown_of};
ghost use Rattle.bands.specs.Bands.{band_checks, band_tiles, BandMet};

use panel::kinds::Refused;
use panel::limits::MOST_TILES;
use panel::refusals::Refusal;
use panel::widths::SEGMENT_FLOATS;
use screen_tile::{no_colour, tile};
use sides::{TILE_HEIGHT, TILE_WIDTH};

// What is checked first: whole segments and a range of rows (1), not too many tiles on the whole
// screen (2), then the width and the band's pixels (16), which are divided: 16 * width * rows can
// pass 64 bits. Apart from fine's own check, whose range is of tiles: one for both would take nine numbers.
fn check_rows(
    segments: usize,
    width: u32,
    cols: u32,
    rows: u32,
    first: u32,
    end: u32,
    pixels: usize,
) -> Result<(), Refusal>
    ensures { verdict_told result ≡ first_no (band_checks segments width cols rows first end pixels) }
{
    if segments % SEGMENT_FLOATS != 0 {
        return Err(Refusal::NotWhole);
    }
    if first > end {
        return Err(Refusal::NotWhole);
    }
    if end > rows {
        return Err(Refusal::NotWhole);
    }
    let n = (cols as u64) * (rows as u64);
    if n > MOST_TILES as u64 {
        return Err(Refusal::TooMany);
    }
    if TILE_WIDTH * (cols as usize) > width as usize {
        return Err(Refusal::BadScreen);
    }
    let own = end - first;
    if (width as usize) * (own as usize) > pixels / TILE_HEIGHT {
        return Err(Refusal::BadScreen);
    }
    Ok(())
}

// The band's tiles in order, of cols times rows, up to the first that is refused: its tile k is the
// screen's tile base + k. Apart from fine's own loop, where a tile's place and its list have one number.
fn tiles(
    words: &[u32],
    segments: &[f32],
    width: usize,
    cols: usize,
    rows: usize,
    base: usize,
    pixels: &mut [u32],
) -> Result<(), Refused>
    requires { (base + cols * rows ≤ most_tiles) × (tile_width * cols ≤ width) × (width * (tile_height * rows) ≤ length pixels.old) }
    ensures { shown (answer_told result) pixels.new ≡ shown_of (band_tiles words.now segments.now width cols base 0 (cols * rows) pixels.old) }
{
    let n = cols * rows;
    let mut rgba = no_colour();
    for k in 0..n {
        let t = base + k;
        let tx = k % cols;
        let ty = k / cols;
        if let Err(why) = tile(words, segments, t, width, tx, ty, &mut rgba, pixels) {
            return Err(why.at(t as u32));
        }
    }
    Ok(())
}

// The public call: the rows of tiles from `first` up to `end` of a screen of cols times rows, `width`
// pixels to a row of it. The band's pixels begin with the first of row `first`. The first tile
// refused stops it, and its pixels and later ones stay.
pub fn fine_rows(
    words: &[u32],
    segments: &[f32],
    width: u32,
    cols: u32,
    rows: u32,
    first: u32,
    end: u32,
    pixels: &mut [u32],
) -> Result<(), Refused>
    ensures { BandMet words.now segments.now width cols rows first end pixels.old (answer_told result) pixels.new }
{
    check_rows(segments.len(), width, cols, rows, first, end, pixels.len())?;
    let own = end - first;
    let base = (cols as usize) * (first as usize);
    tiles(
        words,
        segments,
        width as usize,
        cols as usize,
        own as usize,
        base,
        pixels,
    )
}
