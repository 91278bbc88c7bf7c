// A line that lies within one tile, off its edges: most lines of a trace do. Its walk has one step, on that tile, and is
// not clipped, whatever its slope, so none of the walk's numbers is needed. Where it says nothing, the line is left to `setup` and `clip`.
#![tactic(auto)]

ghost use Rattle.std.specs.Prelude.{◌≡◌};
ghost use Rattle.walk.specs.Step.{Boxed};
ghost use Rattle.spot.specs.Spot.{SpotMet};
ghost use Rattle.spot.specs.Tests.{shifted_of, stretch_of, between_of, long_of, held_of, AtMet, Real};

use float32::{SHIFT, pick};
use panel::kinds::{Path, TileNo};
use util::{TILE_SCALE, Vec2};
use walk::step::tile_at;
use whole::ZERO;

// 2^-20. A line that is shorter, in tiles, across and down together, is left to `setup` and `clip`; 1 divided by a longer one's
// length is far from an infinity.
const SHORT: f32 = 9.5367431640625e-7;

// From the smaller of two numbers to the larger.
#[derive(Clone, Copy)]
struct Stretch {
    least: f32,
    most: f32,
}

// A guess at the floor of s, with SHIFT added, where the floats are the whole numbers: what follows tries it.
fn shifted(s: f32) -> f32
    ensures { result ≡ shifted_of s }
{
    s - 0.5 + SHIFT
}

// Which of the two is the smaller can't be foretold: no branch.
fn stretch_of(u: f32, v: f32) -> Stretch
    ensures { result ≡ stretch_of u v }
{
    let turned = v < u;
    Stretch {
        least: pick(turned, v, u),
        most: pick(turned, u, v),
    }
}

// Whether both ends lie strictly between the guess and one more.
fn between(t: f32, g: Stretch) -> bool
    ensures { result ≡ between_of t g }
{
    let low = t - SHIFT;
    (low < g.least) & (g.most < low + 1.0)
}

// Whether the line is long enough, across and down together.
fn long(g: Stretch, h: Stretch) -> bool
    ensures { result ≡ long_of g h }
{
    SHORT <= g.most - g.least + (h.most - h.least)
}

// All tests of the two ends, with no branch between them.
fn held(tx: f32, ty: f32, across: Stretch, down: Stretch) -> bool
    ensures { result ≡ held_of tx ty across down }
{
    between(tx, across) & between(ty, down) & long(across, down)
}

// The tile by the guesses, where it is in the box: its number, its column and its row.
fn tile_by(tx: f32, ty: f32, b: Path) -> Option<(TileNo, u32, u32)>
    requires { Boxed b × Real tx × Real ty }
    ensures { AtMet tx ty b result }
{
    let col = f32::to_bits(tx).wrapping_sub(ZERO);
    let row = f32::to_bits(ty).wrapping_sub(ZERO);
    let x = col.wrapping_sub(b.x0);
    let y = row.wrapping_sub(b.y0);
    if (x >= b.x1 - b.x0) | (y >= b.y1 - b.y0) {
        return None;
    }
    Some((tile_at(b, col, row), col, row))
}

// The tile that the line from p0 to p1 lies in, where it lies in one of the box b.
pub fn spot_of(p0: Vec2, p1: Vec2, b: Path) -> Option<(TileNo, u32, u32)>
    requires { Boxed b }
    ensures { SpotMet p0 p1 b result }
{
    let s0 = p0.scale(TILE_SCALE);
    let s1 = p1.scale(TILE_SCALE);
    let tx = shifted(s0.x);
    let ty = shifted(s0.y);
    if !held(tx, ty, stretch_of(s0.x, s1.x), stretch_of(s0.y, s1.y)) {
        return None;
    }
    tile_by(tx, ty, b)
}
