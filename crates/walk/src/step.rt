// A step of the walk: path_count.rs, lines 131 to 151, and path_tiling.rs, lines 56 to 58. One
// definition of a step's tile serves both.
ghost use Rattle.std.specs.Prelude.{◌≡◌, ◌+◌, ◌<◌, ◌^◌};
ghost use Rattle.panel.specs.Widths.{step_range};
ghost use Rattle.panel.specs.Kinds.{tile_no_of};
ghost use Rattle.panel.specs.Paths.{tile_of};
ghost use Rattle.walk.specs.Step.{z_at, Boxed, Within, tile_in, step_of, cross_of};

use super::choose::{cut, inside};
use super::kinds::Pace;
use float32::pick;
use panel::kinds::{Path, TileNo};

// z at a step number that is a float.
pub fn z_at(a: f32, b: f32, f: f32) -> f32
    ensures { result ≡ z_at a b f }
{
    float32::floor(a * f + b)
}

// The number of the tile in column x and row y of a path's box.
pub fn tile_at(b: Path, x: u32, y: u32) -> TileNo
    requires { Boxed b × Within b x y }
    ensures { result ≡ tile_no_of (tile_of b x y) }
{
    TileNo(b.first + (y - b.y0) * (b.x1 - b.x0) + (x - b.x0))
}

// The tile in column x and row y by its number, its column and its row, with its z; none where z is no number or
// the tile isn't in the box, which is refused (10).
pub fn tile_in(b: Path, x: i32, y: i32, z: f32) -> Option<(TileNo, u32, u32, f32)>
    requires { Boxed b }
    ensures { result ≡ tile_in b x y z }
{
    let ok = float32::is_finite(z) & (inside(x, b.x0, b.x1) & inside(y, b.y0, b.y1));
    if ok {
        let col = cut(x);
        let row = cut(y);
        Some((tile_at(b, col, row), col, row, z))
    } else {
        None
    }
}

// Step i's tile, with its z.
pub fn step_at(p: Pace, b: Path, i: u32) -> Option<(TileNo, u32, u32, f32)>
    requires { Boxed b × (i < step_range) }
    ensures { result ≡ step_of p b i }
{
    let f = i as f32;
    let z = z_at(p.a, p.b, f);
    let x = float32::to_i32(p.x0 + p.sign * z);
    let y = float32::to_i32(p.y0 + f - z);
    tile_in(b, x, y, z)
}

// Whether step i, in column x with its z, marks the tile right of it: its top edge is crossed, and
// the tile right of it is in the box, whose right edge is x1. last_z is z of the step before.
pub fn crosses(on_top: bool, x1: u32, i: u32, last_z: f32, x: u32, z: f32) -> bool
    requires { x < x1 }
    ensures { result ≡ cross_of on_top x1 i last_z x z }
{
    pick(i == 0, on_top, last_z == z) & (x + 1 < x1)
}
