// The stages of a frame over what is lent, one after another.
ghost use Rattle.std.specs.Prelude.{◌≡◌, ◌+◌, min, length};
ghost use Rattle.panel.specs.Limits.{most_lines};
ghost use Rattle.panel.specs.Paths.{paths_answer};
ghost use Rattle.panel.specs.Pieces.{pieces};
ghost use Rattle.panel.specs.Answer.{Done};
ghost use Rattle.frame.specs.Frame.{out_of, placed_of, drawn_of};
ghost use Rattle.frame.specs.Framed.{framed_told};

use super::kinds::{FrameRefused, Stage};
use panel::kinds::Running;
use panel::limits::MOST_LINES;
use path_count::Stopped;
use ranges::clear;

// Up to which line is counted: all of them, and no further than the first whose number is over the
// limit, at which counting stops.
fn end_of(lines: usize) -> u32
    ensures { result ≡ min lines (most_lines + 1) }
{
    lines.min(MOST_LINES as usize + 1) as u32
}

// Where the lines are counted: the sums, the slots, and a segment and its tag for each reference.
fn place(
    s: Running,
    path_nos: &[u32],
    coords: &[f32],
    paths: &[u32],
    backdrops: &mut [i32],
    stored: &mut [u32],
    tally: &mut [u32],
    refs: &[u32],
    segments: &mut [f32],
    tags: &mut [u32],
) -> Result<Running, FrameRefused>
    requires { (paths_answer paths.now (length stored.old) ≡ Done) × (length backdrops.old ≡ length stored.old) }
    ensures { out_of (framed_told result) backdrops.new stored.new tally.new refs.now (pieces segments.new tags.new)
        ≡ placed_of s path_nos.now coords.now paths.now backdrops.old stored.old tally.old
        refs.now (pieces segments.old tags.old) }
{
    if let Err(refused) = backdrop::backdrop_checked(paths, backdrops) {
        return Err(Stage::Backdrop.refuses(refused, s));
    }
    let room = path_tiling::slots_of(segments.len());
    if let Err(refused) = hand_out::hand_out(stored, tally, room) {
        return Err(Stage::HandOut.refuses(refused, s));
    }
    let tiled = path_tiling::tile_checked(
        0, s.refs, path_nos, coords, paths, stored, refs, segments, tags,
    );
    if let Err(refused) = tiled {
        return Err(Stage::Tile.refuses(refused, s));
    }
    Ok(s)
}

// The stages, once what is lent is checked.
pub(crate) fn draw(
    path_nos: &[u32],
    coords: &[f32],
    paths: &[u32],
    backdrops: &mut [i32],
    stored: &mut [u32],
    tally: &mut [u32],
    refs: &mut [u32],
    segments: &mut [f32],
    tags: &mut [u32],
) -> Result<Running, FrameRefused>
    requires { (paths_answer paths.now (length stored.old) ≡ Done) × (length backdrops.old ≡ length stored.old) }
    ensures { out_of (framed_told result) backdrops.new stored.new tally.new refs.new (pieces segments.new tags.new)
        ≡ drawn_of path_nos.now coords.now paths.now backdrops.old stored.old tally.old
        refs.old (pieces segments.old tags.old) }
{
    // What an older frame left would be counted on.
    let marks = backdrops.len();
    clear(backdrops, 0, marks, 0);
    let tiles = stored.len();
    clear(stored, 0, tiles, 0);
    let none = Running { lines: 0, refs: 0 };
    let end = end_of(path_nos.len());
    match path_count::count_checked(none, end, path_nos, coords, paths, backdrops, stored, refs) {
        Ok(s) => place(
            s, path_nos, coords, paths, backdrops, stored, tally, refs, segments, tags,
        ),
        Err(Stopped { why, item, running }) => Err(Stage::Count.refuses(why.at(item), running)),
    }
}
