// The areas of a tile's pixels, segment by segment, and what they end as: fine.rs, lines 51 to 109. What one segment adds
// is said by the crate one_segment.
ghost use Rattle.std.specs.Prelude.{◌≡◌, ◌+◌, ◌*◌, ◌≤◌, length};
ghost use Rattle.float32.specs.Meaning.{abs_of};
ghost use Rattle.lists.specs.Grid.{mapi};
ghost use Rattle.panel.specs.Widths.{segment_floats};
ghost use Rattle.sides.specs.Tile.{tile_size};
ghost use Rattle.coverage.specs.Coverage.{area_after, finish_of, coverage_of};

use float32::{of_i32, pick, round};
use narrow::Tables;
use one_row::{up_to_one, way_of};
use one_segment::add_segment;
use panel::segments::segment_at;
use sides::TILE_SIZE;

// The n segments from the first on, in order. The two tables are made once and lent, as they would be written for each.
pub fn add_segments(area: &mut [f32], segments: &[f32], first: usize, n: usize, xt: f32, yt: f32)
    requires { (length area.old ≡ tile_size) × (segment_floats * (first + n) ≤ length segments.now) }
    ensures { area.new ≡ mapi (area_after segments.now first xt yt n) area.old }
{
    let tables = Tables::new();
    for j in 0..n {
        let s = segment_at(segments, first + j);
        add_segment(area, way_of(s, xt), yt, &tables);
    }
}

// One value at each pixel. The loop's end is a constant, which the compiler does not know of `area.fill`, nor of `iter_mut`.
pub fn set_all(area: &mut [f32], v: f32)
    requires { length area.old ≡ tile_size }
    ensures { area.new ≡ mapi (λ k x. v) area.old }
{
    for i in 0..TILE_SIZE {
        area[i] = v;
    }
}

// How large v is: of v and 0 less v the larger, with no branch. A NaN stays, and a zero is +0.
pub fn size(v: f32) -> f32
    ensures { result ≡ abs_of v }
{
    let less = 0.0 - v;
    pick(less < v, v, less)
}

// The coverage that a summed area stands for.
pub fn finish(eo: bool, a: f32) -> f32
    ensures { result ≡ finish_of eo a }
{
    if eo {
        size(a - 2.0 * round(0.5 * a))
    } else {
        up_to_one(size(a))
    }
}

pub fn finish_all(area: &mut [f32], eo: bool)
    requires { length area.old ≡ tile_size }
    ensures { area.new ≡ mapi (λ k x. finish_of eo x) area.old }
{
    for i in 0..TILE_SIZE {
        area[i] = finish(eo, area[i]);
    }
}

// The coverage of a tile's pixels.
pub fn fill_path(
    area: &mut [f32],
    segments: &[f32],
    first: usize,
    n: usize,
    eo: bool,
    backdrop: i32,
    xt: f32,
    yt: f32,
)
    requires { (length area.old ≡ tile_size) × (segment_floats * (first + n) ≤ length segments.now) }
    ensures { area.new ≡ coverage_of segments.now first n eo backdrop xt yt }
{
    set_all(area, of_i32(backdrop));
    add_segments(area, segments, first, n, xt, yt);
    finish_all(area, eo);
}
