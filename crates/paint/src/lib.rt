// The lists and the pixels of a drawing, once its frame is done. docs/RULES.md, "From lines to pixels".
// It ends at the first that refuses, and what came before it stands.
#![tactic(auto)]

pub mod kinds;

ghost use Rattle.std.specs.Prelude.{◌≡◌, ◌*◌, ◌≤◌};
ghost use Rattle.panel.specs.Limits.{most_tiles};
ghost use Rattle.pairs.specs.Pairs.{tables};
ghost use Rattle.paint.specs.Paint.{paint_of, painted_of};
ghost use Rattle.paint.specs.Drawn.{drawn_told};

use kinds::{DrawRefused, Part};
use panel::kinds::Running;

// Over what the frame left. There is as much room for slots as segments are lent, and all screen tiles
// are drawn.
#[tactic(auto, unfolding(crate::specs::Paint::painted_of))]
pub fn paint(
    s: Running,
    paths: &[u32],
    paints: &[u32],
    backdrops: &[i32],
    stored: &[u32],
    tally: &[u32],
    segments: &[f32],
    width: u32,
    cols: u32,
    rows: u32,
    words: &mut [u32],
    pixels: &mut [u32],
) -> Result<Running, DrawRefused>
    requires { cols * rows ≤ most_tiles }
    ensures { paint_of (drawn_told result) words.new pixels.new
        ≡ painted_of s (tables paths.now paints.now backdrops.now stored.now tally.now)
        segments.now width cols rows words.old pixels.old }
{
    let room = path_tiling::slots_of(segments.len());
    let listed = write_lists::write_lists(
        paths, paints, backdrops, stored, tally, cols, rows, room, words,
    );
    if let Err(refused) = listed {
        return Err(Part::Lists.refuses(refused, s));
    }
    let tiles = cols * rows;
    let shown = fine::fine(words, segments, width, cols, rows, 0, tiles, pixels);
    if let Err(refused) = shown {
        return Err(Part::Fine.refuses(refused, s));
    }
    Ok(s)
}
