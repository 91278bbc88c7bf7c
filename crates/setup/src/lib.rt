// A line's set-up, and what becomes of it: refused, skipped, or walked. docs/RULES.md, refusals 6 and 7 and
// the skip rules, in this order; path_count.rs up to its clipping. Counting and tiling set up each line
// here, so the tile edges around it are taken once, and what is rare is a branch that nothing waits for.
#![tactic(auto)]

ghost use Rattle.std.specs.Prelude.{◌≡◌, false, ◌+◌, ◌*◌, ◌<◌, ◌≤◌, length};
ghost use Rattle.std.specs.Float.{binary32};
ghost use Rattle.std.specs.Float.Ieee.{sub, lt};
ghost use Rattle.float32.specs.Meaning.{floor_of, abs_of};
ghost use Rattle.exact.specs.Reach.{Near};
ghost use Rattle.panel.specs.Widths.{line_floats};
ghost use Rattle.walk.specs.Setup.{Scaled, ends_of, slope_of, b_of, a_of, walk_on};
ghost use Rattle.walk.specs.Skip.{flat_of, past_of};
ghost use Rattle.walk.specs.Lent.{Reached, reached_of, walked_of, walk_at};
ghost use Rattle.walk.specs.Walked.{walked_told};
ghost use Rattle.walk.specs.Around.{apart_of, tiles_of, Spans, counts_by, Around};

use float32::pick;
use panel::kinds::Path;
use panel::limits::COORD_MOST;
use panel::lines::line_at;
use panel::paths::path_at;
use panel::refusals::Refusal;
use panel::widths::PATH_WORDS;
use util::{ONE_MINUS_ULP, ROBUST_EPSILON, TILE_SCALE, Vec2};
use walk::kinds::{Counts, Ends, Pace, Slope, Walk};

// Check 6: all four coordinates are finite and of magnitude up to the limit.
pub fn reached(p0: Vec2, p1: Vec2) -> bool
    ensures { result ≡ reached_of p0 p1 }
{
    ((float32::abs(p0.x) <= COORD_MOST) & (float32::abs(p0.y) <= COORD_MOST))
        & ((float32::abs(p1.x) <= COORD_MOST) & (float32::abs(p1.y) <= COORD_MOST))
}

// Its ends in the order of y, as they are and in tiles.
pub fn order(p0: Vec2, p1: Vec2) -> Ends
    ensures { result ≡ ends_of p0 p1 }
{
    let is_down = p1.y >= p0.y;
    let xy0 = pick(is_down, p0, p1);
    let xy1 = pick(is_down, p1, p0);
    let s0 = xy0.scale(TILE_SCALE);
    let s1 = xy1.scale(TILE_SCALE);
    Ends {
        is_down,
        xy0,
        xy1,
        s0,
        s1,
    }
}

// b. One comparison chooses: a NaN gives ONE_MINUS_ULP, which is no zero.
pub fn start(m: Slope, s0: Vec2) -> f32
    ensures { result ≡ b_of m s0 }
{
    let b = (m.dy * m.c + m.dx * (m.ytop - s0.y)) * m.idxdy;
    pick(b < ONE_MINUS_ULP, b, ONE_MINUS_ULP)
}

// How far it is from a to b: the larger less the smaller, which the tile edges are taken of too. Where they are equal both are a,
// so that no -0 is left of two zeros.
fn across(a: f32, b: f32) -> f32
    requires { Near a × Near b }
    ensures { result ≡ abs_of (sub binary32 b a) }
{
    let least = pick(b < a, b, a);
    let last = pick(a < b, b, a);
    last - least
}

// The tile edges around a line: of the columns and rows that it is in, as floats.
#[derive(Clone, Copy)]
pub struct Edges {
    pub left: f32,
    pub right: f32,
    pub top: f32,
    pub bottom: f32,
}

// Those of a checked line from s0 to s1, no higher; `top` is the row that s0 is in.
pub fn edges_around(s0: Vec2, s1: Vec2, top: f32) -> Edges
    requires { Scaled s0 × Scaled s1 × (lt s1.y s0.y ≡ false) × (top ≡ floor_of s0.y) }
    ensures { Around s0 s1 result.left result.right result.top result.bottom }
{
    let bottom = -float32::floor_near(-pick(s0.y < s1.y, s1.y, s0.y));
    let left = float32::floor_near(pick(s1.x < s0.x, s1.x, s0.x));
    let right = -float32::floor_near(-pick(s0.x < s1.x, s1.x, s0.x));
    Edges {
        left,
        right,
        top,
        bottom,
    }
}

// How many tiles lie from the edge `low` to the edge `high`, as a float; at least one.
fn apart(low: f32, high: f32) -> f32
    ensures { result ≡ apart_of low high }
{
    let d = high - low;
    pick(d < 1.0, 1.0, d)
}

// The same in whole numbers. Of a checked line that is whole and small, so a plain cast serves.
fn span(low: f32, high: f32) -> u32
    requires { Spans low high }
    ensures { result ≡ tiles_of low high }
{
    apart(low, high) as u32
}

// Whether a line has no length, or lies along tiles' edges; `top` is the row that s0 is in.
pub fn flat(s0: Vec2, s1: Vec2, top: f32) -> bool
    requires { Scaled s0 × Scaled s1 × (top ≡ floor_of s0.y) }
    ensures { result ≡ flat_of s0 s1 }
{
    let dx = across(s0.x, s1.x);
    let dy = s1.y - s0.y;
    (dx + dy == 0.0) | ((dy == 0.0) & (top == s0.y))
}

// Whether a line is below, above or right of the box, or the box has no columns. No end is a NaN, so
// one test picks the smaller x.
fn past(s0: Vec2, s1: Vec2, b: Path) -> bool
    requires { Scaled s0 }
    ensures { result ≡ past_of s0 s1 b }
{
    let left = pick(s1.x < s0.x, s1.x, s0.x);
    let top = float32::of_u32(b.y0);
    let right = float32::of_u32(b.x1);
    let bottom = float32::of_u32(b.y1);
    (s0.y >= bottom) | ((s1.y < top) | ((left >= right) | (b.x1 == b.x0)))
}

// How many steps the walk has, by the edges around the line.
pub fn count_steps(g: Edges) -> Counts
    requires { Spans g.left g.right × Spans g.top g.bottom }
    ensures { result ≡ counts_by g.left g.right g.top g.bottom }
{
    let count_x = span(g.left, g.right) - 1;
    let count = count_x + span(g.top, g.bottom);
    Counts { count_x, count }
}

// What a and b are made of, by the same edges: the first column starts at the left one, or at the right
// one turned. What is added for x0, 0 or -1, is no branch, since x falls as often as it rises.
pub fn incline(s0: Vec2, s1: Vec2, g: Edges) -> Slope
    requires { Around s0 s1 g.left g.right g.top g.bottom }
    ensures { result ≡ slope_of s0 s1 }
{
    let dx = across(s0.x, s1.x);
    let dy = s1.y - s0.y;
    let idxdy = 1.0 / (dx + dy);
    let is_positive_slope = s1.x >= s0.x;
    let sign = pick(is_positive_slope, 1.0, -1.0);
    let xt0 = pick(s1.x < s0.x, -g.right, g.left);
    let c = s0.x * sign - xt0;
    let ytop = pick(s0.y == s1.y, g.bottom, g.top + 1.0);
    let x0 = xt0 * sign + (sign - 1.0) * 0.5;
    Slope {
        dx,
        dy,
        idxdy,
        is_positive_slope,
        sign,
        c,
        y0: g.top,
        ytop,
        x0,
    }
}

// a, by a branch, since the move by ROBUST_EPSILON is rare. The steps are counted in floats, by the same edges: nothing waits for
// a cast to whole numbers and back.
pub fn rise(m: Slope, g: Edges, b: f32) -> f32
    requires { Spans g.left g.right × Spans g.top g.bottom }
    ensures { result ≡ a_of m (counts_by g.left g.right g.top g.bottom) b }
{
    let a = m.dx * m.idxdy;
    let count_x = apart(g.left, g.right) - 1.0;
    let last = count_x + (apart(g.top, g.bottom) - 1.0);
    let robust_err = float32::floor(a * last + b) - count_x;
    if robust_err != 0.0 {
        return a - float32::copysign(ROBUST_EPSILON, robust_err);
    }
    a
}

// The walk from its ordered ends; `top` is the row that it starts in.
fn setup(e: Ends, top: f32) -> Walk
    requires { Scaled e.s0 × Scaled e.s1 × (lt e.s1.y e.s0.y ≡ false) × (top ≡ floor_of e.s0.y) }
    ensures { result ≡ walk_on e }
{
    let s0 = e.s0;
    let s1 = e.s1;
    let g = edges_around(s0, s1, top);
    let k = count_steps(g);
    let m = incline(s0, s1, g);
    let b = start(m, s0);
    let a = rise(m, g, b);
    let pace = Pace {
        a,
        b,
        x0: m.x0,
        y0: m.y0,
        sign: m.sign,
        on_top: m.y0 == s0.y,
    };
    Walk {
        e,
        k,
        is_positive_slope: m.is_positive_slope,
        pace,
    }
}

// The walk of a checked line over the box of its path, or a skip. A coordinate in tiles keeps its order,
// so s1 is no higher than s0, and no branch asks.
fn walk_on(p0: Vec2, p1: Vec2, b: Path) -> Result<Option<(Walk, Path)>, Refusal>
    requires { Reached p0 p1 }
    ensures { walked_told result ≡ walked_of p0 p1 b }
{
    let e = order(p0, p1);
    let s0 = e.s0;
    let s1 = e.s1;
    let top = float32::floor_near(s0.y);
    if flat(s0, s1, top) | past(s0, s1, b) {
        return Ok(None);
    }
    Ok(Some((setup(e, top), b)))
}

// What becomes of line `line_no` of those lent.
pub fn walk_at(
    path_nos: &[u32],
    coords: &[f32],
    paths: &[u32],
    line_no: u32,
) -> Result<Option<(Walk, Path)>, Refusal>
    requires { (line_no < length path_nos.now) × (line_no * line_floats + line_floats ≤ length coords.now) }
    ensures { walked_told result ≡ walk_at path_nos.now coords.now paths.now line_no }
{
    let line = line_at(coords, line_no);
    let p0 = line.p0;
    let p1 = line.p1;
    if !reached(p0, p1) {
        return Err(Refusal::Coordinate);
    }
    let path_no = path_nos[line_no as usize];
    if (path_no as usize) >= paths.len() / PATH_WORDS {
        return Err(Refusal::NoSuch);
    }
    walk_on(p0, p1, path_at(paths, path_no))
}
