// A tile's commands, carried out on one of its pixels: fine.rs, lines 117 to 166, for one pixel.
ghost use Rattle.std.specs.Prelude.{◌≡◌, ◌+◌, ◌*◌, ◌<◌, ◌^◌, length};
ghost use Rattle.sides.specs.Tile.{tile_width, tile_height};
ghost use Rattle.colours.specs.Colour.{pack_of};
ghost use Rattle.commands.specs.Pixel.{Within};
ghost use Rattle.pixel.specs.Place.{place_at};
ghost use Rattle.pixel.specs.Held.{colours_of, nothing_held, laid_on, held_after};
ghost use Rattle.pixel.specs.Answers.{colour_paper};
ghost use Rattle.pixel.specs.Coloured.{coloured_told};
ghost use Rattle.pixel.specs.Colour.{under_list};

use crate::kinds::Held;
use crate::sums::coverage_of;
use colours::{colour, over, pack};
use commands::numbers::{END, LIST_START, TILE_WORDS};
use commands::steps::{Act, move_at, op_of};
use on_pixels::signed;
use panel::limits::MOST_COMMANDS;
use panel::refusals::Refusal;
use reader::peek_from;

// What a tile's pixel starts with: no area and no colour.
fn nothing() -> Held
    ensures { result ≡ nothing_held }
{
    Held {
        area: 0.0,
        px: [0.0; 4],
    }
}

// A COLOR command's colour over it, by its area.
fn laid(p: Held, word: u32) -> Held
    ensures { result ≡ laid_on word p }
{
    Held {
        area: p.area,
        px: over(p.px, colour(word), p.area),
    }
}

// What one command does to it. Segments are tile-relative, so the tile's corner is 0, 0.
fn carry_out(act: Act, segments: &[f32], column: usize, row: usize, p: Held) -> Held
    requires { (Within act (length segments.now)) × (column < tile_width) × (row < tile_height) }
    ensures { result ≡ held_after act segments.now (place_at column row) p }
{
    match act {
        Act::Fill(rule, first, backdrop) => {
            let n = (rule / 2) as usize;
            let even_odd = rule % 2 == 1;
            let b = signed(backdrop);
            let from = first as usize;
            p.covered(coverage_of(segments, from, n, even_odd, b, 0.0, 0.0, column, row))
        }
        Act::Solid => p.covered(1.0),
        Act::Color(word) => laid(p, word),
        Act::Jump => p,
    }
}

// The commands from tile t's first on, up to END or the first that is refused.
pub fn colour_of(
    words: &[u32],
    segments: &[f32],
    t: u32,
    column: usize,
    row: usize,
) -> Result<u32, Refusal>
    requires { (column < tile_width) × (row < tile_height) }
    ensures { colour_paper (coloured_told result) ≡ under_list words.now segments.now t (place_at column row) }
{
    let mut p = nothing();
    let mut at = TILE_WORDS * (t as usize) + LIST_START;
    let mut count = 0u32;
    // no `for`: the command after the last that may be is looked at too, since it may be END
    loop {
        let Some(tag) = peek_from(words, at) else {
            return Err(Refusal::PastEnd);
        };
        if tag == END {
            return Ok(pack(p.px));
        }
        if count == MOST_COMMANDS {
            return Err(Refusal::TooLong);
        }
        let (act, next) = move_at(words, segments, at, op_of(tag))?;
        p = carry_out(act, segments, column, row, p);
        at = next;
        count += 1;
    }
}
