// A line that lies inside its path's box: its walk is not clipped and passes no row left of the box, so that its pace and
// the number of its steps say all. Where it says nothing, the line is left to `setup` and `clip`.
#![tactic(auto)]

ghost use Rattle.std.specs.Prelude.{◌≡◌, false, ◌+◌, ◌*◌, ◌≤◌, length};
ghost use Rattle.std.specs.Float.Ieee.{lt};
ghost use Rattle.panel.specs.Widths.{line_floats};
ghost use Rattle.panel.specs.Lines.{line_at};
ghost use Rattle.walk.specs.Setup.{Scaled, ends_of};
ghost use Rattle.walk.specs.Step.{Boxed};
ghost use Rattle.inside.specs.Inside.{InsideMet};
ghost use Rattle.inside.specs.Stages.{in_edges_of, paced_of};

use box_edges::{Edges, edges_of};
use float32::pick;
use panel::kinds::Path;
use panel::lines::{end_at, line_at};
use setup::{count_steps, edges_around, flat, incline, rise, start};
use util::{TILE_SCALE, Vec2};
use walk::kinds::Pace;

// A line's ends in tiles, the upper one first.
#[derive(Clone, Copy)]
struct Tiled {
    s0: Vec2,
    s1: Vec2,
}

// The ends of the line at a place. Which is the upper one can't be foretold, so its floats are found by their place, with
// no branch.
fn ends_at(coords: &[f32], place: u32) -> Tiled
    requires { place * line_floats + line_floats ≤ length coords.now }
    ensures { (result.s0 ≡ (ends_of (line_at coords.now place).p0 (line_at coords.now place).p1).s0)
        × (result.s1 ≡ (ends_of (line_at coords.now place).p0 (line_at coords.now place).p1).s1) }
{
    let line = line_at(coords, place);
    let is_down = line.p1.y >= line.p0.y;
    let s0 = end_at(coords, place, !is_down).scale(TILE_SCALE);
    let s1 = end_at(coords, place, is_down).scale(TILE_SCALE);
    Tiled { s0, s1 }
}

// Whether both ends lie within a box's edges. The second end's x is held against the right edge once more, as a NaN passes the
// picks: so a line that passes is within the limit of a coordinate, as every box is, and no other test asks.
fn in_edges(s0: Vec2, s1: Vec2, g: Edges) -> bool
    ensures { result ≡ in_edges_of s0 s1 g }
{
    let left = pick(s1.x < s0.x, s1.x, s0.x);
    let right = pick(s0.x < s1.x, s1.x, s0.x);
    (((g.left <= left) & (left < g.right)) & ((right <= g.right) & (s1.x <= g.right)))
        & (((g.top <= s0.y) & (s0.y < g.bottom)) & (s1.y <= g.bottom))
}

// The pace and the steps of a checked line, by its ends in tiles; or nothing where it is skipped. The numbers are those of
// `setup`.
fn paced(s0: Vec2, s1: Vec2) -> Option<(Pace, u32)>
    requires { Scaled s0 × Scaled s1 × (lt s1.y s0.y ≡ false) }
    ensures { result ≡ paced_of s0 s1 }
{
    let top = float32::floor_near(s0.y);
    let around = edges_around(s0, s1, top);
    if flat(s0, s1, top) {
        return None;
    }
    let k = count_steps(around);
    let m = incline(s0, s1, around);
    let b = start(m, s0);
    let a = rise(m, around, b);
    let pace = Pace {
        a,
        b,
        x0: m.x0,
        y0: m.y0,
        sign: m.sign,
        on_top: m.y0 == s0.y,
    };
    Some((pace, k.count))
}

// The pace of the line at a place of those lent, over the box of its path, and the number of its steps; nothing of a line
// that is to be looked at in another way.
pub fn inside_at(coords: &[f32], place: u32, b: Path) -> Option<(Pace, u32)>
    requires { Boxed b × (place * line_floats + line_floats ≤ length coords.now) }
    ensures { InsideMet (line_at coords.now place) b result }
{
    let t = ends_at(coords, place);
    let g = edges_of(b);
    if !in_edges(t.s0, t.s1, g) {
        return None;
    }
    paced(t.s0, t.s1)
}
