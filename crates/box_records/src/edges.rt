// A path's box, from the words that say how far its ends reach; and the tiles of all boxes.
ghost use Rattle.std.specs.Prelude.{◌≡◌, map, ◌+◌, ◌-◌, ◌*◌, ◌≤◌, min, length};
ghost use Rattle.lists.specs.Sums.{sum, from};
ghost use Rattle.panel.specs.Limits.{most_paths, edge_most};
ghost use Rattle.path_reach.specs.Room.{box_words};
ghost use Rattle.box_records.specs.Records.{area_of_word};
ghost use Rattle.box_records.specs.Told.{box_in};

use panel::kinds::Path;
use panel::limits::EDGE_MOST;
use path_reach::BOX_WORDS;

// An inner edge, that word before the limit, m tiles further as far as 0 lets it.
fn before(word: u32, m: u32) -> u32
    ensures { result ≡ edge_most - word - m }
{
    EDGE_MOST.saturating_sub(word).saturating_sub(m)
}

// An outer edge, m tiles further as far as the limit lets it.
fn further(a: u32, m: u32) -> u32
    ensures { result ≡ min (a + m) edge_most }
{
    a.saturating_add(m).min(EDGE_MOST)
}

// Path k's box, m tiles larger on every side as far as 0 and the limit let it; with no line an empty one.
pub fn box_at(work: &[u32], k: u32, m: u32, first: u32) -> Path
    requires { k * box_words + box_words ≤ length work.now }
    ensures { result ≡ box_in work.now m k first }
{
    let at = (k as usize) * BOX_WORDS;
    let right = work[at + 2];
    if right == 0 {
        return Path {
            x0: 0,
            y0: 0,
            x1: 0,
            y1: 0,
            first,
        };
    }
    let x0 = before(work[at], m);
    let y0 = before(work[at + 1], m);
    let x1 = further(right, m);
    let y1 = further(work[at + 3], m);
    Path {
        x0,
        y0,
        x1,
        y1,
        first,
    }
}

// How many tiles a box has.
pub fn area(p: Path) -> u64
    ensures { result ≡ area_of_word p }
{
    (p.x1.saturating_sub(p.x0) as u64) * (p.y1.saturating_sub(p.y0) as u64)
}

// How many the boxes of the first n paths have.
pub fn total(work: &[u32], n: u32, m: u32) -> u64
    requires { (n * box_words ≤ length work.now) × (n ≤ most_paths) }
    ensures { result ≡ sum (map (λ k. area_of_word (box_in work.now m k 0)) (from 0 n)) }
{
    let mut tiles: u64 = 0;
    for k in 0..n {
        tiles += area(box_at(work, k, m, 0));
    }
    tiles
}
