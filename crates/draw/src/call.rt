// The public call, which asks nothing of its caller.
ghost use Rattle.std.specs.Prelude.{◌≡◌, Err};
ghost use Rattle.panel.specs.Refusals.{no_of};
ghost use Rattle.panel.specs.Kinds.{running_of};
ghost use Rattle.panel.specs.Pieces.{pieces};
ghost use Rattle.paint.specs.Drawn as Drawn;
ghost use Rattle.paint.specs.Drawn.{drawn_told};
ghost use Rattle.draw.specs.Draw.{lent_no, DrawMet};

use frame::{Stage, check_lent};
use page_check::check_page;
use paint::kinds::{DrawRefused, Part};
use paint::paint;
use panel::kinds::Running;
use panel::refusals::Refusal;

// A check that fails is told as a frame's own.
fn by_checks(why: Refusal) -> DrawRefused
    ensures { drawn_told (Err result) ≡ Drawn.Refused lent_no (no_of why) 0 (running_of 0 0) }
{
    let none = Running { lines: 0, refs: 0 };
    Part::Frame(Stage::Lent).refuses(why.at(0), none)
}

// From lines to pixels: what a frame takes, then the paints, the screen, and the words and pixels that
// are written.
#[tactic(auto, unfolding(crate::specs::Draw::draw_of, crate::specs::Draw::framed_of))]
pub fn draw(
    path_nos: &[u32],
    coords: &[f32],
    paths: &[u32],
    paints: &[u32],
    backdrops: &mut [i32],
    stored: &mut [u32],
    tally: &mut [u32],
    refs: &mut [u32],
    segments: &mut [f32],
    tags: &mut [u32],
    width: u32,
    cols: u32,
    rows: u32,
    words: &mut [u32],
    pixels: &mut [u32],
) -> Result<Running, DrawRefused>
    ensures { DrawMet path_nos.now coords.now paths.now paints.now backdrops.old
        stored.old tally.old refs.old (pieces segments.old tags.old) width cols rows
        words.old pixels.old
        (drawn_told result) backdrops.new stored.new tally.new refs.new (pieces segments.new tags.new)
        words.new pixels.new }
{
    let lent = check_lent(
        path_nos.len(),
        coords.len(),
        backdrops.len(),
        stored.len(),
        tally.len(),
        refs.len(),
        segments.len(),
        tags.len(),
    );
    if let Err(why) = lent {
        return Err(by_checks(why));
    }
    let page = check_page(
        paths.len(),
        paints.len(),
        stored.len(),
        width,
        cols,
        rows,
        pixels.len(),
    );
    if let Err(why) = page {
        return Err(by_checks(why));
    }
    let running = frame::frame(
        path_nos, coords, paths, backdrops, stored, tally, refs, segments, tags,
    )?;
    paint(
        running, paths, paints, backdrops, stored, tally, segments, width, cols, rows, words,
        pixels,
    )
}
