// boxes::make_boxes: the records of paths, made from their lines.
ghost use Rattle.groatpocket.specs.CallBoxes.{GpBoxesMet};

#[unsafe(no_mangle)]
pub extern "C" fn gp_boxes(
    path_nos: &[u32],
    coords: &[f32],
    beams: &[u32],
    margin: u32,
    paths: &mut [u32],
    work: &mut [u32],
    tiles: &mut u32,
    item: &mut u32,
) -> u32
    ensures { GpBoxesMet path_nos.now coords.now beams.now margin paths.old work.old
        result tiles.new item.new paths.new work.new }
{
    groatpocket::call_boxes::gp_boxes(path_nos, coords, beams, margin, paths, work, tiles, item)
}
