// A reference of a line that lies within one tile, off the tile's left edge: most references of a trace are such. The
// line's walk has one step, so its segment is the line itself as seen from the tile's corner, and none of the walk's
// numbers is needed. Where anything is odd, nothing is written here: the reference is left to `tile_run`, which alone refuses.
#![tactic(auto)]

ghost use Rattle.std.specs.Prelude.{◌≡◌, ◌*◌, ◌≤◌, length};
ghost use Rattle.std.specs.Float.Ieee.{eq};
ghost use Rattle.float32.specs.Inner.{Within};
ghost use Rattle.float32.specs.Meaning.{floor_of};
ghost use Rattle.panel.specs.Limits.{edge_most};
ghost use Rattle.panel.specs.Widths.{line_floats, segment_floats};
ghost use Rattle.panel.specs.Paths.{paths_answer};
ghost use Rattle.panel.specs.Pieces.{pieces};
ghost use Rattle.panel.specs.Answer.{Done};
ghost use Rattle.short_lines.specs.Short.{inner_of, SeenMet, PieceMet, ShortMet, PutMet, TriedMet};

use float32::SHIFT;
use panel::kinds::{LineNo, SlotNo};
use panel::lines::line_at;
use panel::paths::{beam_at, path_at};
use panel::refs::{slice_of, step_of};
use panel::segments::{Segment, held, put};
use panel::slots::{flipped, skips};
use panel::widths::PATH_WORDS;
use segment::{NO_EDGE, corner, make, off_whole};
use spot::spot_of;
use util::{TILE_SIDE, Vec2};

// Whether an end lies in its tile, off the left and the top edge.
fn inner(p: Vec2) -> bool
    ensures { result ≡ inner_of p }
{
    ((p.x > 0.0) & (p.x <= TILE_SIDE)) & ((p.y > 0.0) & (p.y <= TILE_SIDE))
}

// Whether the x of such an end is whole: SHIFT added and taken off leaves a whole number, as `float32::is_whole` has it, and
// nothing has to be asked of the size of x.
fn on_column(x: f32) -> bool
    requires { Within x }
    ensures { result ≡ eq x (floor_of x) }
{
    x == (x + SHIFT) - SHIFT
}

// The segment of ends of which one is on a whole column: it moves.
fn moved(d0: Vec2, d1: Vec2) -> Option<Segment>
    ensures { SeenMet d0 d1 result }
{
    let r0 = off_whole(d0);
    let r1 = off_whole(d1);
    if held(r0) & held(r1) {
        Some(make(r0.x, r0.y, r1.x, r1.y, NO_EDGE))
    } else {
        None
    }
}

// The segment in the tile of column x and row y: the ends as they are seen from its corner. Few ends are on a whole column.
// None where the line is to be looked at in another way.
fn piece_in(p0: Vec2, p1: Vec2, x: u32, y: u32) -> Option<Segment>
    requires { (x ≤ edge_most) × (y ≤ edge_most) }
    ensures { PieceMet p0 p1 x y result }
{
    let t = corner(x, y);
    let d0 = p0.subtract(t);
    let d1 = p1.subtract(t);
    if !(inner(d0) & inner(d1)) {
        return None;
    }
    if on_column(d0.x) | on_column(d1.x) {
        return moved(d0, d1);
    }
    Some(make(d0.x, d0.y, d1.x, d1.y, NO_EDGE))
}

// What a line of those lent comes to that lies within one tile: its segment, its tile's word and its tag. None where it
// is to be looked at in another way.
fn short_at(
    path_nos: &[u32],
    coords: &[f32],
    paths: &[u32],
    stored: &[u32],
    line: LineNo,
) -> Option<(Segment, u32, u32)>
    requires { (length path_nos.now * line_floats ≤ length coords.now) × (paths_answer paths.now (length stored.now) ≡ Done) }
    ensures { ShortMet path_nos.now coords.now paths.now stored.now line.0 result }
{
    if (line.0 as usize) >= path_nos.len() {
        return None;
    }
    let path = path_nos[line.0 as usize];
    if (path as usize) >= paths.len() / PATH_WORDS {
        return None;
    }
    let ends = line_at(coords, line.0);
    let (tile, x, y) = spot_of(ends.p0, ends.p1, path_at(paths, path))?;
    let s = piece_in(ends.p0, ends.p1, x, y)?;
    let word = stored[tile.0 as usize];
    Some((s, word, beam_at(paths, path)))
}

// The same, where it is to be tried so.
pub fn try_short(
    tried: bool,
    path_nos: &[u32],
    coords: &[f32],
    paths: &[u32],
    stored: &[u32],
    line: LineNo,
) -> Option<(Segment, u32, u32)>
    requires { (length path_nos.now * line_floats ≤ length coords.now) × (paths_answer paths.now (length stored.now) ≡ Done) }
    ensures { ShortMet path_nos.now coords.now paths.now stored.now line.0 result }
{
    if !tried {
        return None;
    }
    short_at(path_nos, coords, paths, stored, line)
}

// Its segment and its tag, written for a reference to step 0 whose tile isn't empty and whose slot is there; and whether they were.
fn put_short(
    s: Segment,
    word: u32,
    tag: u32,
    packed: u32,
    slots: u32,
    segments: &mut [f32],
    tags: &mut [u32],
) -> bool
    requires { (slots * segment_floats ≤ length segments.old) × (slots ≤ length tags.old) }
    ensures { PutMet slots word packed s tag (pieces segments.old tags.old) result (pieces segments.new tags.new) }
{
    if step_of(packed) != 0 {
        return false;
    }
    if skips(word) {
        return false;
    }
    let slot = flipped(word) + slice_of(packed);
    if slot >= slots {
        return false;
    }
    put(segments, SlotNo(slot), s);
    tags[slot as usize] = tag;
    true
}

// A reference to a line, by its second word and what the line comes to: whether it was written here.
pub fn put_tried(
    short: Option<(Segment, u32, u32)>,
    packed: u32,
    slots: u32,
    segments: &mut [f32],
    tags: &mut [u32],
) -> bool
    requires { (slots * segment_floats ≤ length segments.old) × (slots ≤ length tags.old) }
    ensures { TriedMet slots packed short (pieces segments.old tags.old) result (pieces segments.new tags.new) }
{
    let Some((s, word, tag)) = short else {
        return false;
    };
    put_short(s, word, tag, packed, slots, segments, tags)
}
