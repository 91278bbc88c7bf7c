// A step's tile by the edges of its path's box as floats: the step of `walk::step`, for a line that was
// checked. Such a line's column and row are whole numbers, exactly, so they are held against the
// edges as floats, which no NaN and no infinity passes, and what passes is cast without loss.
#![tactic(auto)]

ghost use Rattle.std.specs.Prelude.{◌≡◌, ◌<◌};
ghost use Rattle.panel.specs.Widths.{step_range};
ghost use Rattle.exact.specs.Reach.{Starts};
ghost use Rattle.walk.specs.Num.{float};
ghost use Rattle.walk.specs.Step.{Boxed, z_at, step_of};
ghost use Rattle.box_edges.specs.Edges.{edges_of};

use panel::kinds::{Path, TileNo};
use walk::kinds::Pace;
use walk::step::{tile_at, z_at};

#[derive(Clone, Copy)]
pub struct Edges {
    pub left: f32,
    pub top: f32,
    pub right: f32,
    pub bottom: f32,
}

pub fn edges_of(b: Path) -> Edges
    requires { Boxed b }
    ensures { result ≡ edges_of b }
{
    Edges {
        left: b.x0 as f32,
        top: b.y0 as f32,
        right: b.x1 as f32,
        bottom: b.y1 as f32,
    }
}

// The step whose z is at hand. 0 is added before a cast, since -0 isn't cast without loss; a tile's corner is made of the same sum.
pub fn step_with(p: Pace, b: Path, g: Edges, i: u32, z: f32) -> Option<(TileNo, u32, u32, f32)>
    requires { Boxed b × (i < step_range) × Starts p.sign p.x0 p.y0 × (g ≡ edges_of b) × (z ≡ z_at p.a p.b (float i)) }
    ensures { result ≡ step_of p b i }
{
    let f = i as f32;
    let x = p.x0 + p.sign * z;
    let y = p.y0 + f - z;
    if (!(x < g.left) & (x < g.right)) & (!(y < g.top) & (y < g.bottom)) {
        let col = (x + 0.0) as u32;
        let row = (y + 0.0) as u32;
        Some((tile_at(b, col, row), col, row, z))
    } else {
        None
    }
}

pub fn step_by(p: Pace, b: Path, g: Edges, i: u32) -> Option<(TileNo, u32, u32, f32)>
    requires { Boxed b × (i < step_range) × Starts p.sign p.x0 p.y0 × (g ≡ edges_of b) }
    ensures { result ≡ step_of p b i }
{
    step_with(p, b, g, i, z_at(p.a, p.b, i as f32))
}
