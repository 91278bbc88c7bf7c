// sizes::sizes: how much lines and paths need, before anything is lent for them.
ghost use Rattle.groatpocket.specs.CallSizes.{GpSizesMet};

#[unsafe(no_mangle)]
pub extern "C" fn gp_sizes(
    path_nos: &[u32],
    coords: &[f32],
    paths: &[u32],
    cols: u32,
    rows: u32,
    tiles: &mut u32,
    made: &mut u32,
    words: &mut u32,
    item: &mut u32,
) -> u32
    ensures { GpSizesMet path_nos.now coords.now paths.now cols rows result tiles.new made.new words.new
        item.new }
{
    groatpocket::call_sizes::gp_sizes(
        path_nos, coords, paths, cols, rows, tiles, made, words, item,
    )
}
