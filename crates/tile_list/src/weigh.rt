// How long a tile's list is, before a word of it is written.
ghost use Rattle.std.specs.Prelude.{◌≡◌, ◌<◌, ◌≤◌, length};
ghost use Rattle.panel.specs.Limits.{most_paths};
ghost use Rattle.commands.specs.Numbers.{tile_words};
ghost use Rattle.pairs.specs.Pairs.{tile_pairs};
ghost use Rattle.pairs.specs.Lent.{tables_of};
ghost use Rattle.pairs.specs.Ready.{Ready};
ghost use Rattle.lay_pairs.specs.Slots.{slots_fit};
ghost use Rattle.tile_list.specs.Near.{Near};
ghost use Rattle.tile_list.specs.Weight.{no_weight, weigh_pair, weigh_all};

use commands::numbers::{LIST_START, TILE_WORDS};
use lay_pairs::sizes::{fits, jump_count, left_at, pair_size};
use pairs::{Lent, Pair, on_path};
use panel::limits::MOST_SLOTS;

// A tile's pairs so far: how many, how many JUMPs between them, the words left in the region, and
// whether all FILLs' slots fit.
#[derive(Clone, Copy)]
pub struct Weight {
    pub pairs: u32,
    pub jumps: u32,
    pub left: usize,
    pub slots: bool,
}

// Whether a FILL's slots lie within the room named and the limit, in 64 bits.
fn slots_fit(room: u32, pair: Pair) -> bool
    ensures { result ≡ slots_fit room pair }
{
    match pair {
        Pair::Fill { count, first, .. } => {
            let end = first as u64 + count as u64;
            (end <= room as u64) & (end <= MOST_SLOTS as u64)
        }
        Pair::Solid(_) => true,
    }
}

// One pair more.
fn weigh_pair(w: Weight, room: u32, pair: Pair) -> Weight
    requires { (w.pairs < most_paths) × (w.jumps < most_paths) × (w.left ≤ tile_words) }
    ensures { result ≡ weigh_pair room pair w }
{
    let ok = fits(pair, w.left);
    let size = pair_size(pair);
    let jump = jump_count(ok);
    let here = left_at(ok, w.left);
    let within = slots_fit(room, pair);
    Weight {
        pairs: w.pairs + 1,
        jumps: w.jumps + jump,
        left: here - size,
        slots: w.slots & within,
    }
}

// All that these paths put on screen tile t. The weight so far is left alone where a path puts nothing
// there: to give it back as it is, from a function, would copy it at each path.
pub fn weigh(lent: &Lent, near: &[u32], cols: u32, t: u32, room: u32) -> Weight
    requires { (Ready (tables_of lent.now)) × (0 < cols) × (length near.now ≤ most_paths) × (Near (tables_of lent.now) cols t near.now) }
    ensures { result ≡ weigh_all room (tile_pairs (tables_of lent.now) cols t) no_weight }
{
    let x = t % cols;
    let y = t / cols;
    let mut w = Weight {
        pairs: 0,
        jumps: 0,
        left: TILE_WORDS - LIST_START,
        slots: true,
    };
    for &p in near {
        if let Some(pair) = on_path(lent, x, y, p) {
            w = weigh_pair(w, room, pair);
        }
    }
    w
}
