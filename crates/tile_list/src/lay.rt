// A tile's list written: its pairs in regions of words, JUMPs between the regions, END.
ghost use Rattle.std.specs.Prelude.{◌≡◌, true, ◌+◌, ◌*◌, ◌<◌, ◌≤◌, length};
ghost use Rattle.panel.specs.Limits.{most_paths, most_slots, most_tiles};
ghost use Rattle.commands.specs.Numbers.{tile_words};
ghost use Rattle.pairs.specs.Pairs.{tile_pairs};
ghost use Rattle.pairs.specs.Lent.{tables_of};
ghost use Rattle.pairs.specs.Ready.{Ready};
ghost use Rattle.lay_pairs.specs.Layout.{laid, jumps_of, own_words, pen_of, written};
ghost use Rattle.lay_pairs.specs.Slots.{all_fit};
ghost use Rattle.lay_pairs.specs.Room.{Room};
ghost use Rattle.tile_list.specs.Near.{Near};

use commands::numbers::{LIST_START, TILE_WORDS};
use lay_pairs::{Pen, close, lay_put};
use pairs::{Lent, on_path};

// Screen tile t's list, of the paths near it; where the next fresh region is after it.
pub fn lay_tile(
    lent: &Lent,
    near: &[u32],
    cols: u32,
    t: u32,
    fresh: usize,
    words: &mut [u32],
) -> usize
    requires { (Ready (tables_of lent.now)) × (0 < cols) × (t < most_tiles) × (length near.now ≤ most_paths) × (Near (tables_of lent.now) cols t near.now)
        × (Room (pen_of t fresh) (tile_pairs (tables_of lent.now) cols t) (length words.old))
        × (all_fit most_slots (tile_pairs (tables_of lent.now) cols t) ≡ true) }
    ensures { (words.new ≡ written (laid (pen_of t fresh) (tile_pairs (tables_of lent.now) cols t)) words.old)
        × (result ≡ fresh + tile_words * jumps_of own_words (tile_pairs (tables_of lent.now) cols t)) }
{
    let x = t % cols;
    let y = t / cols;
    let mut pen = Pen {
        at: TILE_WORDS * (t as usize) + LIST_START,
        left: TILE_WORDS - LIST_START,
        fresh,
    };
    for &p in near {
        let put = on_path(lent, x, y, p);
        pen = lay_put(words, pen, put);
    }
    close(words, pen.at);
    pen.fresh
}
