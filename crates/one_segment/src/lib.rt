// What one segment adds to the areas of a tile's pixels, row by row: fine.rs, lines 59 to 93.
#![tactic(auto)]

ghost use Rattle.std.specs.Prelude.{◌≡◌, false, ◌+◌, ◌≤◌, ◌<◌, length};
ghost use Rattle.std.specs.Float.Ieee.{lt};
ghost use Rattle.lists.specs.Grid.{mapi, within};
ghost use Rattle.sides.specs.Tile.{tile_height, tile_size, row_start, row_end};
ghost use Rattle.one_row.specs.Row.{slanted, edged, step_row, step_way};
ghost use Rattle.tile_rows.specs.Rows.{rows_at_once, step_in};
ghost use Rattle.narrow.specs.Narrow.{last_span};

use float32::pick;
use narrow::{SPAN_WIDTH, Tables, add_narrow, left_column};
use one_row::{Reach, Row, Way, added, reach_of, row_of};
use sides::{TILE_HEIGHT, TILE_WIDTH};
use tile_rows::own::{edgeless, guess, only};
use tile_rows::rows::{ROWS_AT_ONCE, Rows};
use util::TILE_SIDE;

// Row yi, where the segment goes through it.
pub fn add_slant(area: &mut [f32], p: Reach, edge: f32, dy: f32, yi: usize)
    requires { (yi < tile_height) × (length area.old ≡ tile_size) }
    ensures { area.new ≡ mapi (within (row_start yi) (row_end yi) (slanted p edge dy)) area.old }
{
    let base = TILE_WIDTH * yi;
    for i in 0..TILE_WIDTH {
        let at = base + i;
        area[at] = area[at] + added(p, edge, dy, i);
    }
}

// Row yi, where the segment goes through it: within the span that starts at column g, or not.
pub fn add_part(
    area: &mut [f32],
    p: Reach,
    edge: f32,
    dy: f32,
    yi: usize,
    g: usize,
    tables: &Tables,
)
    requires { (yi < tile_height) × (g ≤ last_span) × (length area.old ≡ tile_size) × (lt p.right p.left ≡ false) }
    ensures { area.new ≡ mapi (within (row_start yi) (row_end yi) (slanted p edge dy)) area.old }
{
    let x = tables.cols[g];
    let narrow = (x <= p.left) & (p.right <= x + SPAN_WIDTH);
    if narrow {
        add_narrow(area, p, edge, dy, yi, g, tables)
    } else {
        add_slant(area, p, edge, dy, yi)
    }
}

// Row yi, where only y_edge counts.
pub fn add_edge(area: &mut [f32], edge: f32, yi: usize)
    requires { (yi < tile_height) × (length area.old ≡ tile_size) }
    ensures { area.new ≡ mapi (within (row_start yi) (row_end yi) (edged edge)) area.old }
{
    let base = TILE_WIDTH * yi;
    for i in 0..TILE_WIDTH {
        let at = base + i;
        area[at] = area[at] + edge;
    }
}

// Row yi of a segment, which is r.
pub fn add_row(area: &mut [f32], w: Way, r: Row, yi: usize)
    requires { (yi < tile_height) × (length area.old ≡ tile_size) }
    ensures { area.new ≡ mapi (within (row_start yi) (row_end yi) (step_row w r)) area.old }
{
    let dy = r.dy;
    let edge = r.edge;
    if dy != 0.0 {
        add_slant(area, reach_of(w, r), edge, dy, yi)
    } else if edge != 0.0 {
        add_edge(area, edge, yi)
    }
}

// Row yi of a segment that goes through it, which is r. Its part is looked for in the span that starts at column g.
pub fn add_own_row(area: &mut [f32], w: Way, r: Row, yi: usize, g: usize, tables: &Tables)
    requires { (yi < tile_height) × (g ≤ last_span) × (length area.old ≡ tile_size) }
    ensures { area.new ≡ mapi (within (row_start yi) (row_end yi) (step_row w r)) area.old }
{
    let dy = r.dy;
    let edge = r.edge;
    if dy != 0.0 {
        add_part(area, reach_of(w, r), edge, dy, yi, g, tables)
    } else if edge != 0.0 {
        add_edge(area, edge, yi)
    }
}

// Four rows of a segment from yi on, whose numbers are these. Four rows that get nothing are passed over by one test.
pub fn add_four(area: &mut [f32], w: Way, rows: &Rows, yi: usize)
    requires { (yi + rows_at_once ≤ tile_height) × (length area.old ≡ tile_size) }
    ensures { area.new ≡ mapi (within (row_start yi) (row_start (yi + rows_at_once))
        (step_in w rows.now.ys rows.now.y0s rows.now.y1s rows.now.dys rows.now.edges)) area.old }
{
    let nothing = rows.four_clear(yi);
    if nothing {
        return;
    }
    for k in 0..ROWS_AT_ONCE {
        let at = yi + k;
        add_row(area, w, rows.row_at(at), at);
    }
}

// All rows of a segment, four at a time.
pub fn add_rows(area: &mut [f32], w: Way, rows: &Rows)
    requires { length area.old ≡ tile_size }
    ensures { area.new ≡ mapi (step_in w rows.now.ys rows.now.y0s rows.now.y1s rows.now.dys rows.now.edges) area.old }
{
    for four in 0..TILE_HEIGHT / ROWS_AT_ONCE {
        add_four(area, w, rows, ROWS_AT_ONCE * four);
    }
}

// All rows of a segment: their numbers first, then the rows.
pub fn add_all(area: &mut [f32], w: Way, yt: f32)
    requires { length area.old ≡ tile_size }
    ensures { area.new ≡ mapi (step_way w yt) area.old }
{
    let mut rows = Rows::new();
    rows.put(w, yt);
    add_rows(area, w, &rows);
}

// The rows from .. to of a segment. Where its parts may lie is guessed once, before the rows: the addresses of the span's
// pixels are known early then.
pub fn add_few(area: &mut [f32], w: Way, yt: f32, from: usize, to: usize, tables: &Tables)
    requires { (from ≤ to) × (to ≤ tile_height) × (length area.old ≡ tile_size) }
    ensures { area.new ≡ mapi (within (row_start from) (row_start to) (step_way w yt)) area.old }
{
    let g = left_column(w);
    for yi in from..to {
        add_own_row(area, w, row_of(w, yt, yi), yi, g, tables);
    }
}

// A segment. One that has no y_edge goes through its own rows only, where the guess at them is right.
pub fn add_segment(area: &mut [f32], w: Way, yt: f32, tables: &Tables)
    requires { length area.old ≡ tile_size }
    ensures { area.new ≡ mapi (step_way w yt) area.old }
{
    let end = w.y + w.dy;
    let low = pick(end < w.y, end, w.y);
    let high = pick(end < w.y, w.y, end);
    let plain = (0.0 <= low) & (high <= TILE_SIDE) & edgeless(w, yt);
    if plain {
        let from = guess(low - 0.5);
        let to = guess(high + 0.5);
        let right = only(w, yt, from, to);
        if right {
            add_few(area, w, yt, from, to, tables);
            return;
        }
    }
    add_all(area, w, yt)
}
