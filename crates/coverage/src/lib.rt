// Coverage of a tile's 16 by 16 pixels: fill_path of fine.rs, lines 51 to 109, and the public call
// with refusals 1 and 13 before it. docs/RULES.md, "Coverage and colour".
#![tactic(auto)]

pub mod area;
pub mod ground;

ghost use Rattle.std.specs.Prelude.{◌≡◌};
ghost use Rattle.panel.specs.Answer.{answer_told};
ghost use Rattle.panel.specs.Checks.{first_no};
ghost use Rattle.panel.specs.Verdict.{verdict_told};
ghost use Rattle.coverage.specs.Fill.{fill_checks, FillMet};

use area::fill_path;
use ground::ground;
use panel::kinds::Refused;
use panel::refusals::Refusal;
use panel::widths::SEGMENT_FLOATS;
use sides::TILE_SIZE;

// What is checked first: whole segments and an area of a tile's size (1), then the fill's segments.
pub fn check_fill(segments: &[f32], area: usize, first: u32, number: u32) -> Result<(), Refusal>
    ensures { verdict_told result ≡ first_no (fill_checks segments.now area first number) }
{
    if segments.len() % SEGMENT_FLOATS != 0 {
        return Err(Refusal::NotWhole);
    }
    if area != TILE_SIZE {
        return Err(Refusal::NotWhole);
    }
    ground(segments, first, number)
}

// The public call: the coverage of a tile's pixels by so many segments from the first on, for a tile
// with its corner at x_tile, y_tile. A refusal changes nothing.
pub fn fill(
    segments: &[f32],
    first: u32,
    number: u32,
    even_odd: bool,
    backdrop: i32,
    x_tile: f32,
    y_tile: f32,
    area: &mut [f32],
) -> Result<(), Refused>
    ensures { FillMet segments.now first number even_odd backdrop x_tile y_tile area.old (answer_told result) area.new }
{
    check_fill(segments, area.len(), first, number)?;
    fill_path(
        area,
        segments,
        first as usize,
        number as usize,
        even_odd,
        backdrop,
        x_tile,
        y_tile,
    );
    Ok(())
}
