// The paths that can put something on a screen tile, in painting order: of all paths those whose box has
// the tile's row, of these the ones that reach into a wide block of its columns, and of these the ones
// that reach into a narrow block. What is left out puts nothing there.
#![tactic(auto)]

ghost use Rattle.std.specs.Prelude.{◌≡◌, ◌+◌, ◌-◌, ◌%◌, ◌<◌, ◌≤◌, length};
ghost use Rattle.lists.specs.Run.{All};
ghost use Rattle.panel.specs.Limits.{most_paths, most_tiles};
ghost use Rattle.panel.specs.Paths.{path_count};
ghost use Rattle.near.specs.Near.{one_if, has_row, has_columns, row_paths, column_paths, block_paths, listed, near_of, few_near, Boxed, Lists, Listed, no_listing};

use panel::kinds::Path;
use panel::limits::{EDGE_MOST, MOST_PATHS};
use panel::paths::path_at;
use panel::widths::PATH_WORDS;

// Columns to a wide block, and to a narrow one.
const WIDE: u32 = 64;

const NARROW: u32 = 8;

// Room for the numbers of all paths.
const MANY: usize = MOST_PATHS as usize;

// Numbers of paths: the first `len` of those there are listed.
#[derive(Clone, Copy)]
pub struct Listing {
    len: usize,
    numbers: [u32; MANY],
}

// A row's paths, a wide block's, and a narrow block's.
#[derive(Clone, Copy)]
pub struct Listings {
    row: Listing,
    wide: Listing,
    narrow: Listing,
}

// Whether a box has row y.
fn has_row(p: Path, y: u32) -> bool
    ensures { result ≡ has_row p y }
{
    (p.y0 <= y) & (y < p.y1)
}

// One more than m where a box has one of the columns from .. to. A box that ends before them starts
// before their end too: so 1 is added for the start, and taken off again for the end.
fn more_if(m: usize, p: Path, from: u32, to: u32) -> usize
    requires { (p.x0 ≤ p.x1) × (from < to) × (m < most_paths) }
    ensures { result ≡ m + one_if (has_columns p from to) }
{
    let start = usize::from(p.x0 < to);
    let end = usize::from(p.x1 <= from);
    m + start - end
}

impl Listing {
    fn none() -> Listing
        ensures { result ≡ no_listing }
    {
        Listing {
            len: 0,
            numbers: [0; MANY],
        }
    }

    fn listed(&self) -> &[u32]
        requires { self.now.len ≤ most_paths }
        ensures { result.now ≡ listed self.now }
    {
        &self.numbers[..self.len]
    }

    // The paths whose box has row y.
    fn on_row(&mut self, paths: &[u32], y: u32)
        requires { Boxed paths.now }
        ensures { Lists self.new (row_paths paths.now y) }
    {
        let n = (paths.len() / PATH_WORDS) as u32;
        let mut m = 0usize;
        for p in 0..n {
            let b = path_at(paths, p);
            self.numbers[m] = p;
            m += usize::from(has_row(b, y));
        }
        self.len = m;
    }

    // Of the paths listed there, the ones whose box has a column from .. to.
    fn on_columns(&mut self, paths: &[u32], list: &[u32], from: u32, to: u32)
        requires { (All (λ p. p < path_count paths.now) list.now) × (length list.now ≤ most_paths) × (Boxed paths.now) × (from < to) }
        ensures { Lists self.new (column_paths paths.now from to list.now) }
    {
        let mut m = 0usize;
        for &p in list {
            let b = path_at(paths, p);
            self.numbers[m] = p;
            m = more_if(m, b, from, to);
        }
        self.len = m;
    }

    // A row's paths: listed anew at its first column.
    fn row_at(&mut self, paths: &[u32], x: u32, y: u32)
        requires { (Boxed paths.now) × (0 < x → Lists self.old (row_paths paths.now y)) }
        ensures { Lists self.new (row_paths paths.now y) }
    {
        if x != 0 {
            return;
        }
        if y >= EDGE_MOST {
            self.len = 0;
            return;
        }
        self.on_row(paths, y);
    }

    // A block's paths, of those listed there: anew at its first column.
    fn block_at(&mut self, paths: &[u32], list: &[u32], size: u32, x: u32)
        requires { (All (λ p. p < path_count paths.now) list.now) × (length list.now ≤ most_paths) × (0 < size) × (size ≤ most_tiles) × (x < most_tiles)
            × (0 < x % size → Lists self.old (block_paths paths.now size x list.now)) × (Boxed paths.now) }
        ensures { Lists self.new (block_paths paths.now size x list.now) }
    {
        if x % size != 0 {
            return;
        }
        self.on_columns(paths, list, x, x + size);
    }
}

impl Listings {
    // Before the first tile.
    pub fn none() -> Listings
        ensures { (result.row ≡ no_listing) × (result.wide ≡ no_listing) × (result.narrow ≡ no_listing) }
    {
        Listings {
            row: Listing::none(),
            wide: Listing::none(),
            narrow: Listing::none(),
        }
    }

    // The paths that can put something on the tile looked at last.
    pub fn near(&self) -> &[u32]
        requires { few_near self.now }
        ensures { result.now ≡ near_of self.now }
    {
        self.narrow.listed()
    }

    // The lists for column x of row y, where they are right for the column before.
    fn look_anew(&mut self, paths: &[u32], x: u32, y: u32)
        requires { (Boxed paths.now) × (x < most_tiles) × (0 < x → Listed paths.now (x - 1) y self.old) }
        ensures { Listed paths.now x y self.new }
    {
        self.row.row_at(paths, x, y);
        self.wide.block_at(paths, self.row.listed(), WIDE, x);
        self.narrow.block_at(paths, self.wide.listed(), NARROW, x);
    }

    // The same: they change at the first column of a narrow block alone.
    pub fn look(&mut self, paths: &[u32], x: u32, y: u32)
        requires { (Boxed paths.now) × (x < most_tiles) × (0 < x → Listed paths.now (x - 1) y self.old) }
        ensures { Listed paths.now x y self.new }
    {
        if x % NARROW != 0 {
            return;
        }
        self.look_anew(paths, x, y);
    }
}
