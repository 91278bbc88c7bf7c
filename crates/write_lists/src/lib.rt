// Writes the command lists: one for each screen tile, from the paths in painting order and the tiles'
// tables. docs/RULES.md, "Command lists" and refusals 1 to 4, 9 and 15. Added: it is in none of the
// files ported.
#![tactic(auto)]

ghost use Rattle.std.specs.Prelude.{◌≡◌, true, ◌+◌, ◌*◌, ◌≤◌, ◌<◌, ◌^◌, length};
ghost use Rattle.lists.specs.Sums.{from};
ghost use Rattle.panel.specs.Limits.{most_tiles, most_slots};
ghost use Rattle.panel.specs.Checks.{first_no};
ghost use Rattle.panel.specs.Verdict.{verdict_told};
ghost use Rattle.panel.specs.Answer.{answer_told};
ghost use Rattle.commands.specs.Numbers.{tile_words};
ghost use Rattle.pairs.specs.Pairs.{tables};
ghost use Rattle.pairs.specs.Lent.{tables_of};
ghost use Rattle.pairs.specs.Ready.{Ready};
ghost use Rattle.lay_pairs.specs.Layout.{written};
ghost use Rattle.lay_pairs.specs.Room.{words_named};
ghost use Rattle.write_lists.specs.Lists.{lent_checks, call_answer, room_checks, fresh_of, fills_fit, lists_from, ListsMet};
ghost use Rattle.write_lists.specs.Ready.{tiles_answer};

use commands::numbers::TILE_WORDS;
use near::Listings;
use pairs::Lent;
use panel::checks::check_paths;
use panel::kinds::Refused;
use panel::limits::{MOST_COMMANDS, MOST_TILES};
use panel::refusals::Refusal;
use panel::widths::{PAINT_WORDS, PATH_WORDS};
use tile_list::lay::lay_tile;
use tile_list::weigh::weigh;

// The lengths lent: whole paths, a paint for each, equally many backdrops, stored words and tally
// words (1); then the screen (2).
fn check_lent(lent: &Lent, cols: u32, rows: u32) -> Result<(), Refusal>
    ensures { verdict_told result ≡ first_no (lent_checks (length lent.now.paths.now) (length lent.now.paints.now) (length lent.now.backdrops.now)
        (length lent.now.stored.now) (length lent.now.tally.now) cols rows) }
{
    let paths = lent.paths.len();
    let backdrops = lent.backdrops.len();
    if paths % PATH_WORDS != 0 {
        return Err(Refusal::NotWhole);
    }
    if lent.paints.len() != PAINT_WORDS * (paths / PATH_WORDS) {
        return Err(Refusal::NotWhole);
    }
    if lent.stored.len() != backdrops {
        return Err(Refusal::NotWhole);
    }
    if lent.tally.len() != backdrops {
        return Err(Refusal::NotWhole);
    }
    if cols as u64 * rows as u64 > MOST_TILES as u64 {
        return Err(Refusal::TooMany);
    }
    Ok(())
}

// 1 to 4.
fn check_call(lent: &Lent, cols: u32, rows: u32) -> Result<(), Refused>
    ensures { answer_told result ≡ call_answer (tables_of lent.now) cols rows }
{
    check_lent(lent, cols, rows)?;
    check_paths(lent.paths, lent.backdrops.len())
}

// Whether so many regions fit the words lent, and all FILLs' slots fit.
fn check_room(regions: u64, words: usize, slots: bool) -> Result<(), Refusal>
    requires { regions < 2 ^ 57 }
    ensures { verdict_told result ≡ first_no (room_checks regions words slots) }
{
    let need = TILE_WORDS as u64 * regions;
    if need > words as u64 {
        return Err(Refusal::NoRoom);
    }
    if !slots {
        return Err(Refusal::NoRoom);
    }
    Ok(())
}

// n screen tiles: 15 for the first that has too many commands, then 9. `lists` is room to work in.
fn check_tiles(
    lent: &Lent,
    lists: &mut Listings,
    cols: u32,
    n: u32,
    room: u32,
    words: usize,
) -> Result<(), Refused>
    requires { (Ready (tables_of lent.now)) × (n ≤ most_tiles) × (0 < n → 0 < cols) }
    ensures { answer_told result ≡ tiles_answer (tables_of lent.now) cols room n words 0 true (from 0 n) }
{
    let mut fresh: u64 = 0;
    let mut slots = true;
    for t in 0..n {
        lists.look(lent.paths, t % cols, t / cols);
        let w = weigh(lent, lists.near(), cols, t, room);
        let commands = 2 * (w.pairs as u64) + w.jumps as u64;
        if commands > MOST_COMMANDS as u64 {
            return Err(Refusal::TooLong.at(t));
        }
        fresh = fresh + w.jumps as u64;
        slots = slots & w.slots;
    }
    check_room(n as u64 + fresh, words, slots)?;
    Ok(())
}

// The lists of n screen tiles, where all has room. `lists` is room to work in.
fn lay_tiles(lent: &Lent, lists: &mut Listings, cols: u32, n: u32, words: &mut [u32])
    requires { (Ready (tables_of lent.now)) × (n ≤ most_tiles) × (0 < n → 0 < cols)
        × (tile_words * (n + fresh_of (tables_of lent.now) cols (from 0 n)) ≤ length words.old)
        × (tile_words * (n + fresh_of (tables_of lent.now) cols (from 0 n)) ≤ words_named)
        × (fills_fit (tables_of lent.now) cols most_slots (from 0 n) ≡ true) }
    ensures { words.new ≡ written (lists_from (tables_of lent.now) cols (tile_words * n) (from 0 n)) words.old }
{
    let mut fresh = TILE_WORDS * (n as usize);
    for t in 0..n {
        lists.look(lent.paths, t % cols, t / cols);
        fresh = lay_tile(lent, lists.near(), cols, t, fresh, words);
    }
}

// The public call: one list for each tile of a screen of cols times rows; `room` segments are named.
// A refusal writes nothing.
pub fn write_lists(
    paths: &[u32],
    paints: &[u32],
    backdrops: &[i32],
    stored: &[u32],
    tally: &[u32],
    cols: u32,
    rows: u32,
    room: u32,
    words: &mut [u32],
) -> Result<(), Refused>
    ensures { ListsMet (tables paths.now paints.now backdrops.now stored.now tally.now) cols rows
        room words.old (answer_told result) words.new }
{
    let lent = Lent {
        paths,
        paints,
        backdrops,
        stored,
        tally,
    };
    check_call(&lent, cols, rows)?;
    let n = cols * rows;
    let mut lists = Listings::none();
    check_tiles(&lent, &mut lists, cols, n, room, words.len())?;
    lay_tiles(&lent, &mut lists, cols, n, words);
    Ok(())
}
