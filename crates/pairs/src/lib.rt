// What a path puts on a screen tile: a command that covers and a COLOR, or nothing. docs/RULES.md,
// "Command lists". Added: it is in none of the files ported.
#![tactic(auto)]

ghost use Rattle.std.specs.Prelude.{◌≡◌, true, ◌+◌, ◌*◌, ◌%◌, ◌≤◌, ◌<◌, length};
ghost use Rattle.panel.specs.Limits.{most_tiles};
ghost use Rattle.panel.specs.Widths.{paint_words};
ghost use Rattle.panel.specs.Paths.{path_count, end_of, tile_of};
ghost use Rattle.pairs.specs.Pairs.{covers, in_box, on_tile, by_path, on_path, put_list};
ghost use Rattle.pairs.specs.Lent.{tables_of};
ghost use Rattle.pairs.specs.Ready.{Ready};

use panel::kinds::Path;
use panel::paths::path_at;
use panel::slots::flipped;
use panel::widths::{PAINT_COLOUR, PAINT_RULE, PAINT_WORDS};

// FILL and COLOR: so many segments from the first on, the rule's word, the backdrop's bits and the
// colour. SOLID and COLOR: the colour.
#[derive(Clone, Copy)]
pub enum Pair {
    Fill {
        count: u32,
        rule: u32,
        first: u32,
        backdrop: u32,
        colour: u32,
    },
    Solid(u32),
}

// What is lent to be read: the paths in painting order, a paint for each, and the tiles' backdrops, stored
// words and tally.
#[derive(Clone, Copy)]
pub struct Lent<'a> {
    pub paths: &'a [u32],
    pub paints: &'a [u32],
    pub backdrops: &'a [i32],
    pub stored: &'a [u32],
    pub tally: &'a [u32],
}

// 1 where n is odd, as a whole number. A float loses that bit from 2^24 on.
fn last_bit(n: u32) -> u32
    ensures { result ≡ n % 2 }
{
    n % 2
}

// Whether a backdrop covers its tile.
fn covers(even_odd: bool, b: i32) -> bool
    ensures { result ≡ covers even_odd b }
{
    if even_odd {
        last_bit(float32::size_of(b)) == 1
    } else {
        b != 0
    }
}

// What goes on a tile with this tally, stored index and backdrop.
fn on_tile(colour: u32, rule: u32, count: u32, stored: u32, b: i32) -> Option<Pair>
    ensures { put_list result ≡ on_tile colour rule count stored b }
{
    if count > 0 {
        return Some(Pair::Fill {
            count,
            rule,
            first: flipped(stored),
            backdrop: b.cast_unsigned(),
            colour,
        });
    }
    let even_odd = rule % 2 == 1;
    if covers(even_odd, b) {
        return Some(Pair::Solid(colour));
    }
    None
}

// Whether the tile in column x and row y is one of the path's box.
fn in_box(p: Path, x: u32, y: u32) -> bool
    ensures { result ≡ in_box p x y }
{
    (p.x0 <= x) & (x < p.x1) & (p.y0 <= y) & (y < p.y1)
}

// The number of the tile in column x and row y of a path's box.
fn tile_in(p: Path, x: u32, y: u32) -> usize
    requires { (in_box p x y ≡ true) × (end_of p ≤ most_tiles) }
    ensures { result ≡ tile_of p x y }
{
    (p.first + (y - p.y0) * (p.x1 - p.x0) + (x - p.x0)) as usize
}

// What path p puts on its tile number t.
fn by_path(lent: &Lent, p: u32, t: usize) -> Option<Pair>
    requires { (p * paint_words + paint_words ≤ length lent.now.paints.now) × (t < length lent.now.backdrops.now) × (t < length lent.now.stored.now)
        × (t < length lent.now.tally.now) }
    ensures { put_list result ≡ by_path (tables_of lent.now) p t }
{
    let k = (p as usize) * PAINT_WORDS;
    let colour = lent.paints[k + PAINT_COLOUR];
    let rule = lent.paints[k + PAINT_RULE];
    let count = lent.tally[t];
    let word = lent.stored[t];
    let back = lent.backdrops[t];
    on_tile(colour, rule, count, word, back)
}

// What path p puts on the screen tile in column x and row y.
pub fn on_path(lent: &Lent, x: u32, y: u32, p: u32) -> Option<Pair>
    requires { (Ready (tables_of lent.now)) × (p < path_count lent.now.paths.now) }
    ensures { put_list result ≡ on_path (tables_of lent.now) x y p }
{
    let b = path_at(lent.paths, p);
    if !in_box(b, x, y) {
        return None;
    }
    let t = tile_in(b, x, y);
    by_path(lent, p, t)
}
