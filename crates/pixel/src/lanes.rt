// The area of one pixel, four segments at a time: what each adds is found first, with no branch between
// them, so that the processor finds all four at once; then they are summed in order.
ghost use Rattle.std.specs.Prelude.{◌≡◌, ◌+◌, ◌*◌, ◌≤◌, ◌<◌, length};
ghost use Rattle.panel.specs.Widths.{segment_floats};
ghost use Rattle.sides.specs.Tile.{tile_width, tile_height};
ghost use Rattle.coverage.specs.Coverage.{area_after};
ghost use Rattle.pixel.specs.Place.{place_at};
ghost use Rattle.pixel.specs.Shares.{lanes, share_of, counts_of, shared_of};

use float32::pick;
use one_row::{Row, Way, added, reach_of, row_of, way_of};
use panel::segments::segment_at;

// So many segments are taken at once: as many floats as the processor has in one register.
pub const LANES: usize = 4;

// What a segment that goes the way w adds at a column of the row r, where it adds anything.
fn share(w: Way, r: Row, column: usize) -> f32
    requires { column < tile_width }
    ensures { result ≡ share_of w r column }
{
    let dy = r.dy;
    let edge = r.edge;
    let slant = added(reach_of(w, r), edge, dy, column);
    pick(dy != 0.0, slant, edge)
}

// Another float than 0 where it does.
fn counts(r: Row) -> f32
    ensures { result ≡ counts_of r }
{
    pick(r.dy != 0.0, 1.0, r.edge)
}

// The area a with a segment's share.
fn shared(a: f32, share: f32, counts: f32) -> f32
    ensures { result ≡ shared_of a share counts }
{
    pick(counts != 0.0, a + share, a)
}

// The area a after the four segments from segment k on, in order. Which of them go through the pixel's
// row can't be foretold, so nothing branches on it.
fn four(segments: &[f32], k: usize, xt: f32, yt: f32, column: usize, row: usize, a: f32) -> f32
    requires { (segment_floats * (k + lanes) ≤ length segments.now) × (column < tile_width) × (row < tile_height) }
    ensures { result ≡ area_after segments.now k xt yt lanes (place_at column row) a }
{
    let mut shares = [0.0f32; LANES];
    let mut tests = [0.0f32; LANES];
    for i in 0..LANES {
        let w = way_of(segment_at(segments, k + i), xt);
        let r = row_of(w, yt, row);
        shares[i] = share(w, r, column);
        tests[i] = counts(r);
    }
    let b = shared(a, shares[0], tests[0]);
    let c = shared(b, shares[1], tests[1]);
    let d = shared(c, shares[2], tests[2]);
    shared(d, shares[3], tests[3])
}

// The area after m fours of segments from the first on, in order.
pub fn fours_after(
    segments: &[f32],
    first: usize,
    m: usize,
    xt: f32,
    yt: f32,
    column: usize,
    row: usize,
    start: f32,
) -> f32
    requires { (segment_floats * (first + m * lanes) ≤ length segments.now) × (column < tile_width) × (row < tile_height) }
    ensures { result ≡ area_after segments.now first xt yt (m * lanes) (place_at column row) start }
{
    let mut a = start;
    for j in 0..m {
        a = four(segments, first + j * LANES, xt, yt, column, row, a);
    }
    a
}
