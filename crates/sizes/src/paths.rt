// The tiles that the paths take, and command words for the lists of a screen.
ghost use Rattle.std.specs.Prelude.{◌≡◌, ◌*◌, ◌≤◌};
ghost use Rattle.panel.specs.Limits.{most_tiles};
ghost use Rattle.panel.specs.Paths.{path_count, paths_answer};
ghost use Rattle.panel.specs.Answer.{Done};
ghost use Rattle.sizes.specs.Words.{tiles_of, on_screen, screen_pairs, pairs_to, region_pairs, words_of};

use commands::numbers::{COLOR_WORDS, FILL_WORDS, JUMP_WORDS, LIST_START, TILE_WORDS};
use panel::checks::end_of;
use panel::kinds::Path;
use panel::paths::path_at;
use panel::widths::PATH_WORDS;

// Where the last path ends.
pub fn tiles_of(paths: &[u32]) -> u32
    requires { paths_answer paths.now most_tiles ≡ Done }
    ensures { result ≡ tiles_of paths.now }
{
    let n = (paths.len() / PATH_WORDS) as u32;
    if n == 0 {
        return 0;
    }
    end_of(path_at(paths, n - 1)) as u32
}

// The columns, or rows, from a up to b that lie below a screen's.
fn on_screen(a: u32, b: u32, most: u32) -> u64
    ensures { result ≡ on_screen a b most }
{
    b.min(most).saturating_sub(a) as u64
}

// The tiles of a path's box that lie on the screen.
fn screen_pairs(p: Path, cols: u32, rows: u32) -> u64
    ensures { result ≡ screen_pairs p cols rows }
{
    let across = on_screen(p.x0, p.x1, cols);
    let down = on_screen(p.y0, p.y1, rows);
    across * down
}

// Those of the first n paths.
fn pairs_to(paths: &[u32], n: u32, cols: u32, rows: u32) -> u64
    requires { (paths_answer paths.now most_tiles ≡ Done) × (n ≤ path_count paths.now) }
    ensures { result ≡ pairs_to paths.now cols rows n }
{
    let mut pairs: u64 = 0;
    for k in 0..n {
        let p = path_at(paths, k);
        pairs += screen_pairs(p, cols, rows);
    }
    pairs
}

// So many of the longest pairs, and a JUMP, have room in a region.
fn region_pairs() -> u64
    ensures { result ≡ region_pairs }
{
    ((TILE_WORDS - LIST_START - JUMP_WORDS) / (FILL_WORDS + COLOR_WORDS)) as u64
}

// The words of a region for each screen tile, and of one more for every so many pairs.
pub fn words_of(paths: &[u32], cols: u32, rows: u32) -> u32
    requires { (paths_answer paths.now most_tiles ≡ Done) × (cols * rows ≤ most_tiles) }
    ensures { result ≡ words_of paths.now cols rows }
{
    let n = (paths.len() / PATH_WORDS) as u32;
    let pairs = pairs_to(paths, n, cols, rows);
    let fresh = pairs / region_pairs();
    let tiles = cols as u64 * rows as u64;
    (TILE_WORDS as u64 * (tiles + fresh)) as u32
}
