// The area of one pixel, segment by segment, and the coverage that it ends as: fine.rs, lines 51 to
// 109, for one xi and yi.
ghost use Rattle.std.specs.Prelude.{◌≡◌, ◌+◌, ◌*◌, ◌≤◌, ◌<◌, length};
ghost use Rattle.panel.specs.Widths.{segment_floats};
ghost use Rattle.sides.specs.Tile.{tile_width, tile_height};
ghost use Rattle.one_row.specs.Row.{step_segment};
ghost use Rattle.coverage.specs.Coverage.{area_after, pixel_of};
ghost use Rattle.pixel.specs.Place.{place_at};

use crate::lanes::{LANES, fours_after};
use coverage::area::finish;
use float32::of_i32;
use one_row::{added, reach_of, row_of, way_of};
use panel::segments::{Segment, segment_at};

// The area a after the segment s.
pub fn step(s: Segment, xt: f32, yt: f32, column: usize, row: usize, a: f32) -> f32
    requires { (column < tile_width) × (row < tile_height) }
    ensures { result ≡ step_segment s xt yt (place_at column row) a }
{
    let w = way_of(s, xt);
    let r = row_of(w, yt, row);
    let dy = r.dy;
    let edge = r.edge;
    if dy != 0.0 {
        return a + added(reach_of(w, r), edge, dy, column);
    }
    if edge != 0.0 { a + edge } else { a }
}

// The area after the n segments from the first on, in order.
pub fn area_after(
    segments: &[f32],
    first: usize,
    n: usize,
    xt: f32,
    yt: f32,
    column: usize,
    row: usize,
    start: f32,
) -> f32
    requires { (segment_floats * (first + n) ≤ length segments.now) × (column < tile_width) × (row < tile_height) }
    ensures { result ≡ area_after segments.now first xt yt n (place_at column row) start }
{
    let mut a = start;
    for j in 0..n {
        a = step(segment_at(segments, first + j), xt, yt, column, row, a);
    }
    a
}

// The coverage: fours of segments, then those left over.
pub fn coverage_of(
    segments: &[f32],
    first: usize,
    n: usize,
    eo: bool,
    backdrop: i32,
    xt: f32,
    yt: f32,
    column: usize,
    row: usize,
) -> f32
    requires { (segment_floats * (first + n) ≤ length segments.now) × (column < tile_width) × (row < tile_height) }
    ensures { result ≡ pixel_of segments.now first n eo backdrop xt yt (place_at column row) }
{
    let start = of_i32(backdrop);
    let m = n / LANES;
    let some = fours_after(segments, first, m, xt, yt, column, row, start);
    let at = m * LANES;
    let sum = area_after(segments, first + at, n - at, xt, yt, column, row, some);
    finish(eo, sum)
}
