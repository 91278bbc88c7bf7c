// A tile's list written, pair by pair: a pair's words, a JUMP before it where it doesn't fit, and END.
// docs/RULES.md, "Command lists". Added: it is in none of the files ported.
#![tactic(auto)]

pub mod sizes;

ghost use Rattle.std.specs.Prelude.{◌≡◌, true, [], ◌∷◌, ◌+◌, ◌*◌, ◌<◌, ◌≤◌, length};
ghost use Rattle.std.proofs.lemmas.List.Edits.{sets};
ghost use Rattle.panel.specs.Limits.{most_slots};
ghost use Rattle.commands.specs.Numbers.{end_no, jump_words, tile_words};
ghost use Rattle.pairs.specs.Pairs.{put_list};
ghost use Rattle.lay_pairs.specs.Layout.{pair_words, pair_size, jump_if, turned, after, pair_chunks, jump_count, begun, pen_after, written};
ghost use Rattle.lay_pairs.specs.Slots.{slots_fit, all_fit};
ghost use Rattle.lay_pairs.specs.Room.{Room, words_named};

use commands::numbers::{END, FILL_WORDS, SOLID_WORDS, TILE_WORDS};
use commands::put::{put_color, put_fill, put_jump, put_solid};
use pairs::Pair;
use sizes::{fits, pair_size};

// The word of a fresh region that a list goes on at: its first. In a tile's own region it starts at
// LIST_START.
const FRESH_START: usize = 0;

// Where the next word goes, how many words are left in its region, and where the next fresh region
// is.
#[derive(Clone, Copy)]
pub struct Pen {
    pub at: usize,
    pub left: usize,
    pub fresh: usize,
}

// A pair's words: those of its two commands.
fn put_pair(words: &mut [u32], at: usize, pair: Pair)
    requires { (at + pair_size pair ≤ length words.old) × (slots_fit most_slots pair ≡ true) }
    ensures { words.new ≡ sets words.old at (pair_words pair) }
{
    match pair {
        Pair::Fill {
            count,
            rule,
            first,
            backdrop,
            colour,
        } => {
            put_fill(words, at, 2 * count + rule % 2, first, backdrop);
            put_color(words, at + FILL_WORDS, colour);
        }
        Pair::Solid(colour) => {
            put_solid(words, at);
            put_color(words, at + SOLID_WORDS, colour);
        }
    }
}

// Where the next pair doesn't fit: a JUMP to the fresh region's first word, and on from there.
fn turn(words: &mut [u32], pen: Pen, fits: bool) -> Pen
    requires { (pen.at + jump_words ≤ length words.old) × (pen.fresh + tile_words * jump_count fits ≤ words_named) }
    ensures { (result ≡ turned fits pen) × (words.new ≡ written (jump_if fits pen) words.old) }
{
    if fits {
        return pen;
    }
    let to = pen.fresh + FRESH_START;
    put_jump(words, pen.at, to as u32);
    Pen {
        at: to,
        left: TILE_WORDS,
        fresh: pen.fresh + TILE_WORDS,
    }
}

// A pair, and a JUMP before it where it needs one.
fn lay_pair(words: &mut [u32], pen: Pen, pair: Pair) -> Pen
    requires { (Room pen (pair ∷ []) (length words.old)) × (slots_fit most_slots pair ≡ true) }
    ensures { (result ≡ after pair pen) × (words.new ≡ written (pair_chunks pair pen) words.old) }
{
    let ok = fits(pair, pen.left);
    let size = pair_size(pair);
    let here = turn(words, pen, ok);
    put_pair(words, here.at, pair);
    Pen {
        at: here.at + size,
        left: here.left - size,
        fresh: here.fresh,
    }
}

// What one path puts there.
pub fn lay_put(words: &mut [u32], pen: Pen, put: Option<Pair>) -> Pen
    requires { (Room pen (put_list put) (length words.old)) × (all_fit most_slots (put_list put) ≡ true) }
    ensures { (result ≡ pen_after pen (put_list put)) × (words.new ≡ written (begun pen (put_list put)) words.old) }
{
    match put {
        None => pen,
        Some(pair) => lay_pair(words, pen, pair),
    }
}

// A list's last word.
pub fn close(words: &mut [u32], at: usize)
    requires { at < length words.old }
    ensures { words.new ≡ sets words.old at (end_no ∷ []) }
{
    words[at] = END;
}
