// How many words a pair takes, and whether a region has room for it.
ghost use Rattle.std.specs.Prelude.{◌≡◌};
ghost use Rattle.lay_pairs.specs.Layout.{pair_size, fits, jump_count, left_at};

use commands::numbers::{COLOR_WORDS, FILL_WORDS, JUMP_WORDS, SOLID_WORDS, TILE_WORDS};
use pairs::Pair;

pub fn pair_size(pair: Pair) -> usize
    ensures { result ≡ pair_size pair }
{
    match pair {
        Pair::Fill { .. } => FILL_WORDS + COLOR_WORDS,
        Pair::Solid(_) => SOLID_WORDS + COLOR_WORDS,
    }
}

// Whether so many words have room for the pair and a JUMP: then END has room too.
pub fn fits(pair: Pair, left: usize) -> bool
    ensures { result ≡ fits pair left }
{
    pair_size(pair) + JUMP_WORDS <= left
}

// The JUMPs before a pair that fits, or does not.
pub fn jump_count(fits: bool) -> u32
    ensures { result ≡ jump_count fits }
{
    u32::from(!fits)
}

// The words left for it then.
pub fn left_at(fits: bool, left: usize) -> usize
    ensures { result ≡ left_at fits left }
{
    if fits { left } else { TILE_WORDS }
}
