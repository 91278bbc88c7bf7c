// A reference's places among ours: by line and step, and by tile and slice. The room holds our own
// count, then for each line and then for each tile where its references begin.
ghost use Rattle.std.specs.Prelude.{◌≡◌, ℕ, ◌+◌, ◌*◌, ◌≤◌, ◌<◌, length, take};
ghost use Rattle.panel.specs.Widths.{line_floats, ref_words};
ghost use Rattle.panel.specs.Paths.{paths_answer};
ghost use Rattle.panel.specs.Answer.{Done};
ghost use Rattle.made.specs.Made.{made_of};
ghost use Rattle.own_count.specs.View.{start_of};
ghost use Rattle.tile_check.specs.Faults.{made_ref, slice_at};
ghost use Rattle.panel.specs.Refs.{line_at};
ghost use Rattle.tile_check.specs.Keys.{KeyMet, RoomHas, own_end};

use made::made_at;
use panel::refs::{named_at, packed_at, slice_of, step_of};

// The two places of reference j, which is made as found; none, where our lines don't make it, or its slice number reaches
// our count.
fn place_in(
    path_nos: &[u32],
    coords: &[f32],
    paths: &[u32],
    refs: &[u32],
    j: u32,
    found: Option<(u32, u32)>,
    work: &[u32],
    tiles: usize,
    made: u32,
) -> Option<(u32, u32)>
    requires { RoomHas path_nos.now coords.now paths.now tiles made work.now × (own_end tiles (length path_nos.now) ≤ length work.now)
        × (j * ref_words + ref_words ≤ length refs.now) × (found ≡ made_ref (made_of path_nos.now coords.now paths.now) refs.now j) }
    ensures { KeyMet (made_of path_nos.now coords.now paths.now)
        (start_of path_nos.now coords.now paths.now tiles) (take tiles work.now) refs.now j result }
{
    let (before, tile) = found?;
    let t = tile as usize;
    if t >= tiles {
        return None;
    }
    let slice = slice_of(packed_at(refs, j));
    if slice >= work[t] {
        return None;
    }
    let line = named_at(refs, j) as usize;
    let starts = tiles + tiles;
    let sums = starts + path_nos.len();
    let start = work[starts + line];
    let first = work[sums + t];
    Some((start + before, first + slice))
}

// The places of reference j.
pub fn key_at(
    path_nos: &[u32],
    coords: &[f32],
    paths: &[u32],
    refs: &[u32],
    j: u32,
    work: &[u32],
    tiles: usize,
    made: u32,
) -> Option<(u32, u32)>
    requires { RoomHas path_nos.now coords.now paths.now tiles made work.now × (own_end tiles (length path_nos.now) ≤ length work.now)
        × (paths_answer paths.now tiles ≡ Done) × (length path_nos.now * line_floats ≤ length coords.now)
        × (j * ref_words + ref_words ≤ length refs.now) }
    ensures { KeyMet (made_of path_nos.now coords.now paths.now)
        (start_of path_nos.now coords.now paths.now tiles) (take tiles work.now) refs.now j result }
{
    let step = step_of(packed_at(refs, j));
    let found = made_at(path_nos, coords, paths, named_at(refs, j), step);
    place_in(path_nos, coords, paths, refs, j, found, work, tiles, made)
}
