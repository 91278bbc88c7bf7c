// What one command does to a tile's areas and colours; and a tile's commands up to its first FILL, on one
// pixel for all. docs/RULES.md, "Coverage and colour"; fine.rs, lines 128 to 171.
#![tactic(auto)]

ghost use Rattle.std.specs.Prelude.{◌≡◌, false, ◌-◌, ◌≤◌, length};
ghost use Rattle.float32.specs.Meaning.{sign_of};
ghost use Rattle.util.specs.Constants.{zero};
ghost use Rattle.panel.specs.Limits.{most_commands};
ghost use Rattle.sides.specs.Tile.{tile_size};
ghost use Rattle.colours.specs.Layer.{meant, NoMinus};
ghost use Rattle.commands.specs.Moves.{trace_of};
ghost use Rattle.commands.specs.Pixel.{signed_of, Within, paint, cover_all, paint_all};
ghost use Rattle.commands.specs.Alike.{same_area, same_colour, run_from};
ghost use Rattle.on_pixels.specs.One.{alike, cover_one};

use colours::layer::composite;
use colours::{colour, over};
use commands::numbers::{END, FILL};
use commands::steps::{Act, move_at, op_of};
use coverage::area::{fill_path, set_all};
use panel::limits::MOST_COMMANDS;
use reader::peek_from;
use sides::{TILE_HEIGHT, TILE_SIZE};

// A word's 32 bits as a signed number. By hand: `as` asks that the number fits, and a word from the half on doesn't.
pub fn signed(w: u32) -> i32
    ensures { result ≡ signed_of w }
{
    if w < 2147483648 {
        w as i32
    } else {
        -1 - ((4294967295 - w) as i32)
    }
}

// Areas that are all the same.
pub fn same_area(a: f32) -> [f32; TILE_SIZE]
    ensures { result ≡ same_area a }
{
    [a; TILE_SIZE]
}

// What one command does to the areas and the colours. fine.rs passes the tile's origin on the screen
// to fill_path; segments are tile-relative, so here it is 0, 0.
pub fn carry_out(
    act: Act,
    segments: &[f32],
    area: &mut [f32],
    rgba: &mut [[f32; 4]; TILE_SIZE],
    flat: &mut [bool; TILE_HEIGHT],
)
    requires { (Within act (length segments.now)) × (length area.old ≡ tile_size) × (length rgba.old ≡ tile_size) × NoMinus area.old }
    ensures { (area.new ≡ cover_all act segments.now area.old) × (length rgba.new ≡ tile_size)
        × (meant flat.new rgba.new ≡ paint_all act area.old (meant flat.old rgba.old)) }
{
    match act {
        Act::Fill(rule, first, backdrop) => {
            let n = (rule / 2) as usize;
            let even_odd = rule % 2 == 1;
            let b = signed(backdrop);
            fill_path(area, segments, first as usize, n, even_odd, b, 0.0, 0.0)
        }
        Act::Solid => set_all(area, 1.0),
        Act::Color(word) => composite(rgba, flat, area, colour(word)),
        Act::Jump => {}
    }
}

// Where the first commands lead: the place of the next, how many came before it, and the area that all
// pixels have there.
#[derive(Clone, Copy)]
pub struct Opening {
    pub at: usize,
    pub count: u32,
    pub area: f32,
}

// Whether a command leaves pixels alike that were: a FILL doesn't.
pub fn alike(act: Act) -> bool
    ensures { result ≡ alike act }
{
    match act {
        Act::Fill(_, _, _) => false,
        _ => true,
    }
}

// Their area after such a command.
pub fn cover_one(act: Act, a: f32) -> f32
    ensures { result ≡ cover_one act a }
{
    match act {
        Act::Solid => 1.0,
        _ => a,
    }
}

// Their colour.
pub fn paint_one(act: Act, a: f32, px: &mut [f32; 4])
    ensures { px.new ≡ paint act a px.old }
{
    if let Act::Color(word) = act {
        *px = over(*px, colour(word), a);
    }
}

// The commands from the word `start` on, up to END, a FILL or the first that is refused, on one pixel:
// until then all are alike. A FILL is known by its first word, so that its segments are not looked at twice.
pub fn begin(words: &[u32], segments: &[f32], start: usize, px: &mut [f32; 4]) -> Opening
    ensures { (result.count ≤ most_commands)
        × (run_from segments.now (trace_of most_commands words.now segments.now start) zero (same_colour px.old)
        ≡ run_from segments.now (trace_of (most_commands - result.count) words.now segments.now result.at) result.area (same_colour px.new))
        × (sign_of result.area ≡ false) }
{
    let mut area = 0.0f32;
    let mut at = start;
    for count in 0..MOST_COMMANDS {
        let Some(tag) = peek_from(words, at) else {
            return Opening { at, count, area };
        };
        if (tag == END) | (tag == FILL) {
            return Opening { at, count, area };
        }
        let Ok((act, next)) = move_at(words, segments, at, op_of(tag)) else {
            return Opening { at, count, area };
        };
        if !alike(act) {
            return Opening { at, count, area };
        }
        paint_one(act, area, px);
        area = cover_one(act, area);
        at = next;
    }
    Opening {
        at,
        count: MOST_COMMANDS,
        area,
    }
}
