// What a segment does to one row of pixels, and to one pixel of it: fine.rs, lines 59 to 93. The
// divisions and signs that are the same in every row stand before the rows.
#![tactic(auto)]

ghost use Rattle.std.specs.Prelude.{◌≡◌, ◌<◌};
ghost use Rattle.float32.specs.Meaning.{min_of, max_of, clamp_of};
ghost use Rattle.util.specs.Constants.{zero, one};
ghost use Rattle.sides.specs.Tile.{tile_width, tile_height};
ghost use Rattle.one_row.specs.Row.{way_of, row_of, reach_of, added_of};
ghost use Rattle.one_row.specs.Column.{added_at};

use float32::{max, min, pick, signum};
use panel::segments::Segment;

// What every row has of a segment: where it starts, beside the tile's left side and down the screen,
// how far it goes, 1 over its height, the sign of its width, and its y_edge.
#[derive(Clone, Copy)]
pub struct Way {
    pub x: f32,
    pub y: f32,
    pub dx: f32,
    pub dy: f32,
    pub recip: f32,
    pub sign: f32,
    pub edge: f32,
}

// A row's share of a segment: how far below the row's top the segment starts, that and its end
// brought within the row, the height between the two, and what y_edge adds.
#[derive(Clone, Copy)]
pub struct Row {
    pub y: f32,
    pub y0: f32,
    pub y1: f32,
    pub dy: f32,
    pub edge: f32,
}

// How far the part within a row reaches to the left and to the right.
#[derive(Clone, Copy)]
pub struct Reach {
    pub left: f32,
    pub right: f32,
}

pub fn way_of(s: Segment, xt: f32) -> Way
    ensures { result ≡ way_of s xt }
{
    let dx = s.p1.x - s.p0.x;
    let dy = s.p1.y - s.p0.y;
    let sign = signum(dx);
    Way {
        x: s.p0.x - xt,
        y: s.p0.y,
        dx,
        dy,
        recip: 1.0 / dy,
        sign,
        edge: s.y_edge,
    }
}

// x brought within a row, from its top at 0 to 1. Two choices, with no branch: a NaN and -0 stay.
pub fn in_row(x: f32) -> f32
    ensures { result ≡ clamp_of x zero one }
{
    let high = pick(x < 0.0, 0.0, x);
    pick(1.0 < high, 1.0, high)
}

pub fn row_of(w: Way, yt: f32, yi: usize) -> Row
    requires { yi < tile_height }
    ensures { result ≡ row_of w yt yi }
{
    let top = yt + (yi as f32);
    let y = w.y - top;
    let y0 = in_row(y);
    let y1 = in_row(y + w.dy);
    let edge = w.sign * in_row(top - w.edge + 1.0);
    Row {
        y,
        y0,
        y1,
        dy: y0 - y1,
        edge,
    }
}

// The smaller of two. A segment goes to the right in all its rows or in none, so that the first comparisons can be
// foretold; only of two that are equal, and beside a NaN, is more to be asked.
pub fn smaller(a: f32, b: f32) -> f32
    ensures { result ≡ min_of a b }
{
    if a < b {
        return a;
    }
    if b < a {
        return b;
    }
    min(a, b)
}

// The larger of two, likewise.
pub fn larger(a: f32, b: f32) -> f32
    ensures { result ≡ max_of a b }
{
    if a < b {
        return b;
    }
    if b < a {
        return a;
    }
    max(a, b)
}

pub fn reach_of(w: Way, r: Row) -> Reach
    ensures { result ≡ reach_of w r }
{
    let x0 = w.x + (r.y0 - r.y) * w.recip * w.dx;
    let x1 = w.x + (r.y1 - r.y) * w.recip * w.dx;
    let left = smaller(x0, x1);
    let right = larger(x0, x1);
    Reach { left, right }
}

// The smaller of x and 1. One comparison chooses: a NaN gives the other, and no zero is 1.
pub fn up_to_one(x: f32) -> f32
    ensures { result ≡ min_of x one }
{
    if x < 1.0 { x } else { 1.0 }
}

// The larger of x and 0, by one comparison too: of a zero +0 is the larger.
pub fn from_zero(x: f32) -> f32
    ensures { result ≡ max_of x zero }
{
    if 0.0 < x { x } else { 0.0 }
}

// What a row's slanted part adds at the column whose left side is at x.
pub fn added_at(p: Reach, edge: f32, dy: f32, x: f32) -> f32
    ensures { result ≡ added_at p edge dy x }
{
    let xmin = up_to_one(p.left - x) - 1.0e-6;
    let xmax = p.right - x;
    let b = up_to_one(xmax);
    let c = from_zero(b);
    let d = from_zero(xmin);
    let a = (b + 0.5 * (d * d - c * c) - xmin) / (xmax - xmin);
    edge + a * dy
}

// What it adds at column i.
pub fn added(p: Reach, edge: f32, dy: f32, i: usize) -> f32
    requires { i < tile_width }
    ensures { result ≡ added_of p edge dy i }
{
    added_at(p, edge, dy, i as f32)
}
