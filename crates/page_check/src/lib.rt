// What a drawing checks before its frame begins, of the paths, the paints, the tiles, the screen and the
// pixels: by lengths and sizes alone, so that a refusal changes nothing. docs/RULES.md, "From lines to
// pixels".
#![tactic(auto)]

ghost use Rattle.std.specs.Prelude.{◌≡◌};
ghost use Rattle.panel.specs.Checks.{first_no};
ghost use Rattle.panel.specs.Verdict.{verdict_told};
ghost use Rattle.page_check.specs.Page.{page_checks};

use panel::limits::{MOST_PATHS, MOST_TILES};
use panel::refusals::Refusal;
use panel::widths::{PAINT_WORDS, PATH_WORDS};
use sides::{TILE_HEIGHT, TILE_WIDTH};

// Whole paths with a paint each (1), not too many of them, of tiles and of screen tiles (2), then the
// width and the pixels (16). 16 * width * rows can pass 64 bits, so the pixels are divided.
pub fn check_page(
    np: usize,
    na: usize,
    nt: usize,
    width: u32,
    cols: u32,
    rows: u32,
    pixels: usize,
) -> Result<(), Refusal>
    ensures { verdict_told result ≡ first_no (page_checks np na nt width cols rows pixels) }
{
    if np % PATH_WORDS != 0 {
        return Err(Refusal::NotWhole);
    }
    let n = np / PATH_WORDS;
    if na != PAINT_WORDS * n {
        return Err(Refusal::NotWhole);
    }
    if n > MOST_PATHS as usize {
        return Err(Refusal::TooMany);
    }
    if nt > MOST_TILES as usize {
        return Err(Refusal::TooMany);
    }
    let m = (cols as u64) * (rows as u64);
    if m > MOST_TILES as u64 {
        return Err(Refusal::TooMany);
    }
    if TILE_WIDTH * (cols as usize) > width as usize {
        return Err(Refusal::BadScreen);
    }
    if (width as usize) * (rows as usize) > pixels / TILE_HEIGHT {
        return Err(Refusal::BadScreen);
    }
    Ok(())
}
