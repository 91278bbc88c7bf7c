// One pixel of a tile, asked for by itself: its coverage by a fill, and its colour under a tile's list
// of commands. A second engine beside `coverage::fill` and `fine::fine`: no array of pixels, and none of
// their loops. docs/RULES.md, "One pixel"; fill_path and fine_main of fine.rs.
#![tactic(auto)]

pub mod kinds;
pub mod lanes;
pub mod run;
pub mod sums;

ghost use Rattle.std.specs.Prelude.{◌≡◌};
ghost use Rattle.panel.specs.Checks.{first_no};
ghost use Rattle.panel.specs.Verdict.{verdict_told};
ghost use Rattle.pixel.specs.Place.{place_checks};
ghost use Rattle.pixel.specs.Covered.{covered_told};
ghost use Rattle.pixel.specs.Coloured.{coloured_told};
ghost use Rattle.pixel.specs.Coverage.{CoverageAtMet};
ghost use Rattle.pixel.specs.Colour.{ColourAtMet};

use coverage::check_fill;
use panel::refusals::Refusal;
use panel::widths::SEGMENT_FLOATS;
use run::colour_of;
use sides::{TILE_HEIGHT, TILE_SIZE, TILE_WIDTH};
use sums::coverage_of;

// Whether the pixel is one of a tile's (19).
fn check_place(column: u32, row: u32) -> Result<(), Refusal>
    ensures { verdict_told result ≡ first_no (place_checks column row) }
{
    if column as usize >= TILE_WIDTH {
        return Err(Refusal::OffTile);
    }
    if row as usize >= TILE_HEIGHT {
        return Err(Refusal::OffTile);
    }
    Ok(())
}

// The public call: the coverage of the tile's pixel in that column and row, by so many segments from
// the first on, for a tile with its corner at x_tile, y_tile. 19, then as fill has them 1 and 13.
pub fn coverage_at(
    segments: &[f32],
    first: u32,
    number: u32,
    even_odd: bool,
    backdrop: i32,
    x_tile: f32,
    y_tile: f32,
    column: u32,
    row: u32,
) -> Result<f32, Refusal>
    ensures { CoverageAtMet segments.now first number even_odd backdrop x_tile y_tile column row (covered_told result) }
{
    check_place(column, row)?;
    check_fill(segments, TILE_SIZE, first, number)?;
    Ok(coverage_of(
        segments,
        first as usize,
        number as usize,
        even_odd,
        backdrop,
        x_tile,
        y_tile,
        column as usize,
        row as usize,
    ))
}

// The public call: the pixel in that column and row of screen tile t, packed, under the tile's list of
// commands. 19, then 1, then as the tile has them 13, 14 and 15.
pub fn colour_at(
    words: &[u32],
    segments: &[f32],
    t: u32,
    column: u32,
    row: u32,
) -> Result<u32, Refusal>
    ensures { ColourAtMet words.now segments.now t column row (coloured_told result) }
{
    check_place(column, row)?;
    if segments.len() % SEGMENT_FLOATS != 0 {
        return Err(Refusal::NotWhole);
    }
    colour_of(words, segments, t, column as usize, row as usize)
}
