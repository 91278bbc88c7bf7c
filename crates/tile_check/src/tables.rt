// The tables beside our own count, in the order references, counts, backdrops, slots.
ghost use Rattle.std.specs.Prelude.{Ok, ◌≡◌, ℕ, ◌+◌, ◌*◌, ◌/◌, ◌≤◌, ◌<◌, min, length};
ghost use Rattle.lists.specs.Run.{done};
ghost use Rattle.panel.specs.Limits.{most_tiles, most_slots};
ghost use Rattle.panel.specs.Widths.{line_floats, ref_words};
ghost use Rattle.panel.specs.Paths.{paths_answer};
ghost use Rattle.panel.specs.Answer.{Done};
ghost use Rattle.made.specs.Made.{made_of};
ghost use Rattle.own_count.specs.Own.{own_ran};
ghost use Rattle.own_count.specs.View.{view_of, StartsNoted};
ghost use Rattle.tile_check.specs.Checked.{checked_told};
ghost use Rattle.tile_check.specs.Tables.{tables_of, work_words};
ghost use Rattle.tile_check.specs.Keys.{rest_of, looked_at};

use super::backs::first_back;
use super::kinds::Fault;
use super::refs::first_ref;
use entries::{first_count, first_slots, sum_up};
use panel::limits::MOST_SLOTS;
use panel::widths::REF_WORDS;

// So many slots are looked at.
fn slots_in(room: u32) -> u32
    ensures { result ≡ min room most_slots }
{
    room.min(MOST_SLOTS)
}

// So many references are looked at, of those lent: one more than ours hold a fault.
fn refs_in(lent: usize, made: u32) -> usize
    ensures { result ≡ looked_at lent made }
{
    lent.min(made as usize + 1)
}

// Counts, backdrops and slots; then whether a reference is missing of those lent.
fn look_past(
    counts: &[u32],
    backs: &[i32],
    stored: &[u32],
    room: u32,
    lent: usize,
    made: u32,
    work: &mut [u32],
) -> Option<Fault>
    requires { (length backs.now ≡ length counts.now) × (length stored.now ≡ length counts.now) × (length counts.now ≤ most_tiles)
        × (length counts.now + length counts.now ≤ length work.old) }
    ensures { checked_told (Ok result) ≡ rest_of (view_of (length counts.now) work.old made) lent counts.now backs.now stored.now room }
{
    let tiles = counts.len();
    let c = first_count(counts, work);
    if c < tiles {
        return Some(Fault::Count(c as u32));
    }
    let b = first_back(backs, work);
    if b < tiles {
        return Some(Fault::Backdrop(b as u32));
    }
    let met = first_slots(counts, stored, slots_in(room), work, 0, tiles);
    let s = met.first;
    if s < tiles {
        return Some(Fault::Slots(s as u32));
    }
    if lent < made as usize {
        return Some(Fault::Reference(lent as u32));
    }
    None
}

// All of them, with our own count and the lines' starts in the room.
pub fn look(
    path_nos: &[u32],
    coords: &[f32],
    paths: &[u32],
    refs: &[u32],
    counts: &[u32],
    backs: &[i32],
    stored: &[u32],
    room: u32,
    work: &mut [u32],
    made: u32,
) -> Option<Fault>
    requires { (own_ran path_nos.now coords.now paths.now (length counts.now) ≡ done (view_of (length counts.now) work.old made))
        × StartsNoted path_nos.now coords.now paths.now (length counts.now) work.old (length counts.now + length counts.now) (length path_nos.now)
        × (paths_answer paths.now (length counts.now) ≡ Done) × (length path_nos.now * line_floats ≤ length coords.now)
        × (length backs.now ≡ length counts.now) × (length stored.now ≡ length counts.now)
        × (length work.old ≡ work_words (length counts.now) (length path_nos.now) (length refs.now / ref_words)) }
    ensures { checked_told (Ok result) ≡ tables_of (made_of path_nos.now coords.now paths.now) (view_of (length counts.now) work.old made)
        refs.now counts.now backs.now stored.now room }
{
    let tiles = counts.len();
    let sums = tiles + tiles + path_nos.len();
    sum_up(work, tiles, sums);
    let lent = refs.len() / REF_WORDS;
    let n = refs_in(lent, made);
    let found = first_ref(path_nos, coords, paths, refs, n, work, tiles, made);
    let f = found.first;
    if f < n {
        return Some(Fault::Reference(f as u32));
    }
    look_past(counts, backs, stored, room, lent, made, work)
}
