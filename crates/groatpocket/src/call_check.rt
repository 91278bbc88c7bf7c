// tile_check::check_tiles: another's tables beside our own count of the lines.
ghost use Rattle.groatpocket.specs.CallCheck.{GpCheckMet};

use panel::refusals::DONE;
use tile_check::Fault;

// The refusal's number, what was found, and the entry's or the item's. Only a yes is found as 1: nothing that a caller
// leaves unread can pass for one.
pub fn gp_check(
    path_nos: &[u32],
    coords: &[f32],
    paths: &[u32],
    refs: &[u32],
    counts: &[u32],
    backdrops: &[i32],
    stored: &[u32],
    room: u32,
    work: &mut [u32],
    found: &mut u32,
    item: &mut u32,
) -> u32
    ensures { GpCheckMet path_nos.now coords.now paths.now refs.now counts.now backdrops.now
        stored.now room work.old result found.new item.new work.new }
{
    let answer = tile_check::check_tiles(
        path_nos, coords, paths, refs, counts, backdrops, stored, room, work,
    );
    let (number, what, i) = match answer {
        Ok(None) => (DONE, 1, 0),
        Ok(Some(Fault::Reference(j))) => (DONE, 2, j),
        Ok(Some(Fault::Count(t))) => (DONE, 3, t),
        Ok(Some(Fault::Backdrop(t))) => (DONE, 4, t),
        Ok(Some(Fault::Slots(t))) => (DONE, 5, t),
        Err(refused) => (refused.why.number(), 0, refused.item),
    };
    *found = what;
    *item = i;
    number
}
