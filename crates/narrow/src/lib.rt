// Parts of a segment that are narrow, as most are: within their row they lie in a few columns that stand side by side, a
// span. Only in these is anything divided. The columns left of the span get what y_edge adds, and those right of it that
// and the part's whole height.
#![tactic(auto)]

ghost use Rattle.std.specs.Prelude.{◌≡◌, ◌+◌, ◌≤◌, ◌<◌, length};
ghost use Rattle.lists.specs.Grid.{mapi, within};
ghost use Rattle.sides.specs.Tile.{tile_width, tile_height, tile_size, row_start, row_end};
ghost use Rattle.one_row.specs.Row.{slanted};
ghost use Rattle.narrow.specs.Narrow.{span, last_span, column_list, part_list, pixel_added, four_added, four_put, parted, Narrow};

use float32::pick;
use one_row::{Reach, Way, added_at, from_zero};
use sides::TILE_WIDTH;
use tile_rows::own::guess;

// How many columns a span has, as a whole number and as a float; and the last column that one starts at.
pub const SPAN: usize = 4;

pub const SPAN_WIDTH: f32 = 4.0;

pub const LAST_SPAN: usize = TILE_WIDTH - SPAN;

// How many numbers `parts` has.
pub const PARTS: usize = TILE_WIDTH + LAST_SPAN;

// A number for each column of a span.
#[derive(Clone, Copy)]
pub struct Four {
    pub n0: f32,
    pub n1: f32,
    pub n2: f32,
    pub n3: f32,
}

// What is made once and lent to each row, as one made in a row would be written there each time: the left side of each
// column; and 0 for as many columns as a row has, and then 1. Of the second, read from the place LAST_SPAN - g on, the first
// 1 is for the column right of the span that starts at column g.
#[derive(Drop)]
pub struct Tables {
    pub cols: [f32; TILE_WIDTH],
    pub parts: [f32; PARTS],
    ghost lefts: { cols ≡ column_list },
    ghost shares: { parts ≡ part_list },
}

impl Tables {
    pub fn new() -> Tables {
        Tables {
            cols: columns(),
            parts: parts(),
        }
    }
}

// The left side of each column.
fn columns() -> [f32; TILE_WIDTH]
    ensures { result ≡ column_list }
{
    [
        0.0, 1.0, 2.0, 3.0, 4.0, 5.0, 6.0, 7.0, 8.0, 9.0, 10.0, 11.0, 12.0, 13.0, 14.0, 15.0,
    ]
}

// 0 for as many columns as a row has, and then 1.
fn parts() -> [f32; PARTS]
    ensures { result ≡ part_list }
{
    [
        0.0, 0.0, 0.0, 0.0, 0.0, 0.0, 0.0, 0.0, 0.0, 0.0, 0.0, 0.0, 0.0, 0.0, 0.0, 0.0, 1.0, 1.0,
        1.0, 1.0, 1.0, 1.0, 1.0, 1.0, 1.0, 1.0, 1.0, 1.0,
    ]
}

// A guess at the column that has the segment's left end, or else the last that a span starts at.
pub fn left_column(w: Way) -> usize
    ensures { result ≤ last_span }
{
    let end = w.x + w.dx;
    let left = from_zero(pick(end < w.x, end, w.x));
    let i = guess(left - 0.5);
    if i < LAST_SPAN { i } else { LAST_SPAN }
}

// What pixel k becomes, in column i.
fn pixel_added(
    area: &[f32],
    p: Reach,
    edge: f32,
    dy: f32,
    k: usize,
    i: usize,
    cols: &[f32; TILE_WIDTH],
) -> f32
    requires { (k < length area.now) × (i < tile_width) }
    ensures { result ≡ pixel_added p edge dy area.now k cols.now i }
{
    area[k] + added_at(p, edge, dy, cols[i])
}

// What the pixels of the span that starts at column g become, the first of which is `at`.
pub fn four_added(
    area: &[f32],
    p: Reach,
    edge: f32,
    dy: f32,
    at: usize,
    g: usize,
    cols: &[f32; TILE_WIDTH],
) -> Four
    requires { (at + span ≤ length area.now) × (g ≤ last_span) }
    ensures { result ≡ four_added p edge dy area.now at cols.now g }
{
    let n0 = pixel_added(area, p, edge, dy, at, g, cols);
    let n1 = pixel_added(area, p, edge, dy, at + 1, g + 1, cols);
    let n2 = pixel_added(area, p, edge, dy, at + 2, g + 2, cols);
    let n3 = pixel_added(area, p, edge, dy, at + 3, g + 3, cols);
    Four { n0, n1, n2, n3 }
}

// Row yi, where a column gets nothing of dy up to the end of the span that starts at column g, and right of it the whole.
pub fn add_parts(area: &mut [f32], edge: f32, dy: f32, yi: usize, g: usize, parts: &[f32; PARTS])
    requires { (yi < tile_height) × (g ≤ last_span) × (length area.old ≡ tile_size) }
    ensures { area.new ≡ mapi (within (row_start yi) (row_end yi) (parted edge dy parts.now g)) area.old }
{
    let base = TILE_WIDTH * yi;
    let from = LAST_SPAN - g;
    for i in 0..TILE_WIDTH {
        let at = base + i;
        area[at] = area[at] + (edge + parts[from + i] * dy);
    }
}

// The four pixels from `at` on.
pub fn put_four(area: &mut [f32], at: usize, four: Four)
    requires { at + span ≤ length area.old }
    ensures { area.new ≡ four_put area.old at four }
{
    area[at] = four.n0;
    area[at + 1] = four.n1;
    area[at + 2] = four.n2;
    area[at + 3] = four.n3;
}

// Row yi, where the segment goes through it within the span that starts at column g. The span's pixels are worked out
// first, and written over what the loop over the row leaves there.
pub fn add_narrow(
    area: &mut [f32],
    p: Reach,
    edge: f32,
    dy: f32,
    yi: usize,
    g: usize,
    tables: &Tables,
)
    requires { (yi < tile_height) × (g ≤ last_span) × (length area.old ≡ tile_size) × Narrow p g }
    ensures { area.new ≡ mapi (within (row_start yi) (row_end yi) (slanted p edge dy)) area.old }
{
    let at = TILE_WIDTH * yi + g;
    let four = four_added(area, p, edge, dy, at, g, &tables.cols);
    add_parts(area, edge, dy, yi, g, &tables.parts);
    put_four(area, at, four);
}
