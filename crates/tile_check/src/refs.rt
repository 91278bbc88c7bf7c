// The first reference at fault: stray, or made by an earlier one too, by line and step or by tile and
// slice.
ghost use Rattle.std.specs.Prelude.{◌≡◌, ℕ, ◌+◌, ◌-◌, ◌*◌, ◌/◌, ◌≤◌, ◌<◌, ◌^◌, length, take};
ghost use Rattle.panel.specs.Widths.{line_floats, ref_words};
ghost use Rattle.panel.specs.Paths.{paths_answer};
ghost use Rattle.panel.specs.Answer.{Done};
ghost use Rattle.meeting.specs.First.{first_of};
ghost use Rattle.made.specs.Made.{made_of};
ghost use Rattle.own_count.specs.View.{start_of};
ghost use Rattle.tile_check.specs.Faults.{ref_fault};
ghost use Rattle.tile_check.specs.Keys.{NotedTo, RoomHas, own_end};
ghost use Rattle.meeting.specs.Found.{KeptBelow};

use super::keys::key_at;
use meeting::meeting;

// The first reference at fault; how many references were looked at in the search for one that has an
// earlier one's step, and for one that has its slice; how many words for a flag in each.
#[derive(Clone, Copy)]
pub struct FirstRef {
    pub first: usize,
    pub steps: u64,
    pub step_words: u64,
    pub slices: u64,
    pub slice_words: u64,
}

// The first stray one of n; the keys of those before it are noted behind what is ours.
fn note_refs(
    path_nos: &[u32],
    coords: &[f32],
    paths: &[u32],
    refs: &[u32],
    n: usize,
    work: &mut [u32],
    tiles: usize,
    made: u32,
) -> usize
    requires { RoomHas path_nos.now coords.now paths.now tiles made work.old × (own_end tiles (length path_nos.now) + n + n ≤ length work.old)
        × (paths_answer paths.now tiles ≡ Done) × (length path_nos.now * line_floats ≤ length coords.now) × (n * ref_words ≤ length refs.now) × (n ≤ made + 1) }
    ensures { NotedTo (made_of path_nos.now coords.now paths.now)
        (start_of path_nos.now coords.now paths.now tiles) (take tiles work.old) refs.now
        work.old work.new (own_end tiles (length path_nos.now)) n result }
{
    let a = tiles + tiles + path_nos.len() + tiles;
    let b = a + n;
    for j in 0..n {
        let key = key_at(path_nos, coords, paths, refs, j as u32, work, tiles, made);
        let Some((step, slice)) = key else {
            return j;
        };
        work[a + j] = step;
        work[b + j] = slice;
    }
    n
}

// The first of n at fault; n where none is. The places noted are below the references made, and each
// window has twice as many keys as there are references: so each search looks at half as many
// references as are made, and at each once more, at most.
pub fn first_ref(
    path_nos: &[u32],
    coords: &[f32],
    paths: &[u32],
    refs: &[u32],
    n: usize,
    work: &mut [u32],
    tiles: usize,
    made: u32,
) -> FirstRef
    requires { RoomHas path_nos.now coords.now paths.now tiles made work.old × (own_end tiles (length path_nos.now) + n + n + n + n ≤ length work.old)
        × (paths_answer paths.now tiles ≡ Done) × (length path_nos.now * line_floats ≤ length coords.now) × (n * ref_words ≤ length refs.now) × (n ≤ made + 1) }
    ensures { (result.first ≡ first_of (ref_fault (made_of path_nos.now coords.now paths.now) (take tiles work.old) refs.now) n)
        × KeptBelow (own_end tiles (length path_nos.now)) work.old work.new
        × (result.steps ≤ made / 2 + n) × (result.step_words ≤ made + made + (length work.old - (own_end tiles (length path_nos.now) + n + n)) + 1)
        × (result.slices ≤ made / 2 + n) × (result.slice_words ≤ made + made + (length work.old - (own_end tiles (length path_nos.now) + n + n)) + 1) }
{
    let a = tiles + tiles + path_nos.len() + tiles;
    let b = a + n;
    let free = b + n;
    let f = note_refs(path_nos, coords, paths, refs, n, work, tiles, made);
    let none = &refs[0..0];
    let g = meeting(work, a, none, f, free);
    let h = meeting(work, b, none, g.first, free);
    FirstRef {
        first: h.first,
        steps: g.ranges,
        step_words: g.words,
        slices: h.ranges,
        slice_words: h.words,
    }
}
