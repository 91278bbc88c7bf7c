// A step's piece of its line, clipped to the step's tile: path_tiling.rs from `tile_xy` to the
// asserts, in its order and with its nudges. The definitions stand in specs/Clips.antt, and on one
// page beside the Rust in specs/Page.antt; specs/By.antt has them by the z's and the corner that are at hand.
#![tactic(auto)]

ghost use Rattle.std.specs.Prelude.{◌≡◌, ◌≤◌, ◌<◌};
ghost use Rattle.std.specs.Float.{binary32};
ghost use Rattle.std.specs.Float.Ieee.{add};
ghost use Rattle.float32.specs.Meaning.{clamp_of};
ghost use Rattle.util.specs.Constants.{tile_side, nudge};
ghost use Rattle.panel.specs.Limits.{edge_most};
ghost use Rattle.panel.specs.Widths.{step_range};
ghost use Rattle.segment.specs.Clips.{corner_of, far_of, at_row_of, at_col_of, clip_of, make_of, edge_of, off_of, turn_of};
ghost use Rattle.segment.specs.By.{corner_at, first_by, last_by, segment_by, piece_by};

use carry::Zs;
use float32::pick;
use panel::segments::{Segment, held};
use util::Vec2;
use walk::kinds::{Pace, Walk};

// path_tiling.rs: what a clipped end keeps from its tile's left or top edge, what an end on a whole
// column is moved by, and the y_edge of a segment that has none.
pub const NUDGE: f32 = 1e-3;

pub const EPSILON: f32 = 1e-6;

pub const NO_EDGE: f32 = 1e9;

// The upper left corner of the tile in column x and row y, and from it the lower right one.
pub fn corner(x: u32, y: u32) -> Vec2
    requires { (x ≤ edge_most) × (y ≤ edge_most) }
    ensures { result ≡ corner_of x y }
{
    Vec2::new(x as f32 * util::TILE_SIDE, y as f32 * util::TILE_SIDE)
}

pub fn far(t: Vec2) -> Vec2
    ensures { result ≡ far_of t }
{
    t.add(Vec2::new(util::TILE_SIDE, util::TILE_SIDE))
}

// The upper left corner of step i's tile from the floats that its column and row are cast from, with no cast
// and back: z is the step's. 0 is added, since -0 may come of the sums.
pub fn corner_at(p: Pace, i: u32, z: f32) -> Vec2
    requires { i < step_range }
    ensures { result ≡ corner_at p i z }
{
    let x = p.x0 + p.sign * z;
    let y = p.y0 + i as f32 - z;
    Vec2::new((x + 0.0) * util::TILE_SIDE, (y + 0.0) * util::TILE_SIDE)
}

// v brought within a tile's edges in one direction, the near one at t, as `float32::clamp` does it: by choices, with no branch,
// since on which side of an edge an end falls can't be foretold. The edges are in order wherever the tile is, so no choice asks.
fn hold(v: f32, t: f32) -> f32
    ensures { result ≡ clamp_of v (add binary32 t nudge) (add binary32 t tile_side) }
{
    let lo = t + NUDGE;
    let hi = t + util::TILE_SIDE;
    let above = pick(v < lo, lo, v);
    pick(hi < above, hi, above)
}

// Where the line from p to q is at the height y, and at the column x: held to the tile at t.
pub fn at_row(p: Vec2, q: Vec2, y: f32, t: Vec2) -> Vec2
    ensures { result ≡ at_row_of p q y t }
{
    let xt = p.x + (q.x - p.x) * (y - p.y) / (q.y - p.y);
    Vec2::new(hold(xt, t.x), y)
}

pub fn at_col(p: Vec2, q: Vec2, x: f32, t: Vec2) -> Vec2
    ensures { result ≡ at_col_of p q x t }
{
    let yt = p.y + (q.y - p.y) * (x - p.x) / (q.x - p.x);
    Vec2::new(x, hold(yt, t.y))
}

// The clip at the height y where the neighbour step is in the same column, and else at the column x.
pub fn clip(same: bool, p: Vec2, q: Vec2, y: f32, x: f32, t: Vec2) -> Vec2
    ensures { result ≡ clip_of same p q y x t }
{
    if same {
        at_row(p, q, y, t)
    } else {
        at_col(p, q, x, t)
    }
}

pub fn make(x0: f32, y0: f32, x1: f32, y1: f32, y_edge: f32) -> Segment
    ensures { result ≡ make_of x0 y0 x1 y1 y_edge }
{
    let p0 = Vec2 { x: x0, y: y0 };
    let p1 = Vec2 { x: x1, y: y1 };
    Segment { p0, p1, y_edge }
}

// Ends on the tile's left edge.
pub fn edge(x0: f32, y0: f32, x1: f32, y1: f32) -> Segment
    ensures { result ≡ edge_of x0 y0 x1 y1 }
{
    if x0 == 0.0 {
        if x1 == 0.0 {
            if y0 == 0.0 {
                // Entire tile
                make(EPSILON, y0, EPSILON, util::TILE_SIDE, NO_EDGE)
            } else {
                // Make segment disappear
                make(EPSILON, y0, 2.0 * EPSILON, y0, NO_EDGE)
            }
        } else if y0 == 0.0 {
            make(EPSILON, y0, x1, y1, NO_EDGE)
        } else {
            make(x0, y0, x1, y1, y0)
        }
    } else if x1 == 0.0 {
        if y1 == 0.0 {
            make(x0, y0, EPSILON, y1, NO_EDGE)
        } else {
            make(x0, y0, x1, y1, y1)
        }
    } else {
        make(x0, y0, x1, y1, NO_EDGE)
    }
}

// A whole x that is not 0 moves left. Only whether x is whole counts, so no floor is made. What it moves by is
// chosen, of two constants, and not the end: x less 0 is x itself, and the compiled choice is shorter.
pub fn off_whole(p: Vec2) -> Vec2
    ensures { result ≡ off_of p }
{
    let by = pick(float32::is_whole(p.x) & (p.x != 0.0), EPSILON, 0.0);
    Vec2::new(p.x - by, p.y)
}

// Both ends moved, and in the line's own direction again. Each float is chosen by itself: a point that is
// chosen as a whole is packed into one word by the compiler, and taken apart again.
pub fn turn(is_down: bool, s: Segment) -> Segment
    ensures { result ≡ turn_of is_down s }
{
    let r0 = off_whole(s.p0);
    let r1 = off_whole(s.p1);
    make(
        pick(is_down, r0.x, r1.x),
        pick(is_down, r0.y, r1.y),
        pick(is_down, r1.x, r0.x),
        pick(is_down, r1.y, r0.y),
        s.y_edge,
    )
}

// The first end: the line's own at step 0, and else where the walk comes into the tile at t. s has
// the step's z's. The line's own is returned float by float, since the compiler packs a point that is
// returned early into one word.
pub fn first_end(w: Walk, s: Zs, t: Vec2) -> Vec2
    ensures { result ≡ first_by w s t }
{
    let p = w.e.xy0;
    let q = w.e.xy1;
    if s.at == 0 {
        return Vec2::new(p.x, p.y);
    }
    let x_clip = pick(w.is_positive_slope, t.x, far(t).x);
    clip(s.z == s.before, p, q, t.y, x_clip, t)
}

// The last end: the line's own at the last step, float by float as in `first_end`, and else where the
// walk goes out. p is the first end, clipped.
pub fn last_end(w: Walk, s: Zs, t: Vec2, p: Vec2) -> Vec2
    requires { s.at < step_range }
    ensures { result ≡ last_by w s t p }
{
    let q = w.e.xy1;
    if s.at + 1 >= w.k.count {
        return Vec2::new(q.x, q.y);
    }
    let t1 = far(t);
    let x_clip = pick(w.is_positive_slope, t1.x, t.x);
    clip(s.z == s.after, p, q, t1.y, x_clip, t)
}

// The segment of a step in the tile whose corner is t.
pub fn segment_of(w: Walk, s: Zs, t: Vec2) -> Segment
    requires { s.at < step_range }
    ensures { result ≡ segment_by w s t }
{
    let q0 = first_end(w, s, t);
    let q1 = last_end(w, s, t, q0);
    let p0 = q0.subtract(t);
    let p1 = q1.subtract(t);
    turn(w.e.is_down, edge(p0.x, p0.y, p1.x, p1.y))
}

// A segment, or none where an end lies outside the tile (12).
pub fn piece_of(w: Walk, s: Zs, t: Vec2) -> Option<Segment>
    requires { s.at < step_range }
    ensures { result ≡ piece_by w s t }
{
    let made = segment_of(w, s, t);
    let p0 = made.p0;
    let p1 = made.p1;
    if held(p0) & held(p1) {
        Some(made)
    } else {
        None
    }
}
