// write_lists::write_lists: a list of commands for each screen tile.
ghost use Rattle.pairs.specs.Pairs.{tables};
ghost use Rattle.groatpocket.specs.CallLists.{GpListsMet};

#[unsafe(no_mangle)]
pub extern "C" fn gp_write_lists(
    paths: &[u32],
    paints: &[u32],
    backdrops: &[i32],
    stored: &[u32],
    tally: &[u32],
    cols: u32,
    rows: u32,
    room: u32,
    words: &mut [u32],
    at: &mut u32,
) -> u32
    ensures { GpListsMet (tables paths.now paints.now backdrops.now stored.now tally.now) cols rows room words.old
        result at.new words.new }
{
    groatpocket::call_lists::gp_write_lists(
        paths, paints, backdrops, stored, tally, cols, rows, room, words, at,
    )
}
