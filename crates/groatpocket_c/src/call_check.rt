// tile_check::check_tiles: another's tables beside our own count of the lines.
ghost use Rattle.groatpocket.specs.CallCheck.{GpCheckMet};

#[unsafe(no_mangle)]
pub extern "C" fn gp_check(
    path_nos: &[u32],
    coords: &[f32],
    paths: &[u32],
    refs: &[u32],
    counts: &[u32],
    backdrops: &[i32],
    stored: &[u32],
    room: u32,
    work: &mut [u32],
    found: &mut u32,
    item: &mut u32,
) -> u32
    ensures { GpCheckMet path_nos.now coords.now paths.now refs.now counts.now backdrops.now
        stored.now room work.old result found.new item.new work.new }
{
    groatpocket::call_check::gp_check(
        path_nos, coords, paths, refs, counts, backdrops, stored, room, work, found, item,
    )
}
