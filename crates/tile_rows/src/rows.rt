// All rows of a segment at once: their numbers in one loop with no branch, which is done four rows at a
// time, before the rows that they are for.
ghost use Rattle.std.specs.Prelude.{◌≡◌, ◌+◌, ◌≤◌, ◌<◌};
ghost use Rattle.sides.specs.Tile.{tile_height};
ghost use Rattle.tile_rows.specs.Rows.{rows_at_once, no_rows, column, row_in, clear_at_word, four_clear};
ghost use Rattle.one_row.specs.declared.Row.{Row};

use one_row::{Row, Way, row_of};
use sides::TILE_HEIGHT;

// So many rows are looked at by one test.
pub const ROWS_AT_ONCE: usize = 4;

// The numbers of each row, those of one kind beside each other.
#[derive(Drop)]
pub struct Rows {
    pub ys: [f32; TILE_HEIGHT],
    pub y0s: [f32; TILE_HEIGHT],
    pub y1s: [f32; TILE_HEIGHT],
    pub dys: [f32; TILE_HEIGHT],
    pub edges: [f32; TILE_HEIGHT],
}

impl Rows {
    // Room for them.
    pub fn new() -> Rows
        ensures { (result.ys ≡ no_rows) × (result.y0s ≡ no_rows) × (result.y1s ≡ no_rows) × (result.dys ≡ no_rows) × (result.edges ≡ no_rows) }
    {
        Rows {
            ys: [0.0; TILE_HEIGHT],
            y0s: [0.0; TILE_HEIGHT],
            y1s: [0.0; TILE_HEIGHT],
            dys: [0.0; TILE_HEIGHT],
            edges: [0.0; TILE_HEIGHT],
        }
    }

    // Those of a segment that goes the way w, whatever stood there.
    pub fn put(&mut self, w: Way, yt: f32)
        ensures { (self.new.ys ≡ column (λ (r : Row). r.y) w yt no_rows)
            × (self.new.y0s ≡ column (λ (r : Row). r.y0) w yt no_rows)
            × (self.new.y1s ≡ column (λ (r : Row). r.y1) w yt no_rows)
            × (self.new.dys ≡ column (λ (r : Row). r.dy) w yt no_rows)
            × (self.new.edges ≡ column (λ (r : Row). r.edge) w yt no_rows) }
    {
        for yi in 0..TILE_HEIGHT {
            let r = row_of(w, yt, yi);
            self.ys[yi] = r.y;
            self.y0s[yi] = r.y0;
            self.y1s[yi] = r.y1;
            self.dys[yi] = r.dy;
            self.edges[yi] = r.edge;
        }
    }

    // Row yi.
    pub fn row_at(&self, yi: usize) -> Row
        requires { yi < tile_height }
        ensures { result ≡ row_in self.now.ys self.now.y0s self.now.y1s self.now.dys self.now.edges yi }
    {
        Row {
            y: self.ys[yi],
            y0: self.y0s[yi],
            y1: self.y1s[yi],
            dy: self.dys[yi],
            edge: self.edges[yi],
        }
    }

    // Whether row yi gets nothing: no height in it, and no y_edge.
    fn clear(&self, yi: usize) -> bool
        requires { yi < tile_height }
        ensures { result ≡ clear_at_word self.now.dys self.now.edges yi }
    {
        (self.dys[yi] == 0.0) & (self.edges[yi] == 0.0)
    }

    // Whether the four rows from yi on get nothing: one test, and no branch in it.
    pub fn four_clear(&self, yi: usize) -> bool
        requires { yi + rows_at_once ≤ tile_height }
        ensures { result ≡ four_clear self.now.dys self.now.edges yi }
    {
        self.clear(yi) & self.clear(yi + 1) & self.clear(yi + 2) & self.clear(yi + 3)
    }
}
