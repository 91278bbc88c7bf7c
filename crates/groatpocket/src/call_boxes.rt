// boxes::make_boxes: the records of paths, made from their lines.
ghost use Rattle.groatpocket.specs.CallBoxes.{GpBoxesMet};

use panel::refusals::DONE;

// The number, the tiles that the boxes take in all, and the item's: 0 where there is none.
pub fn gp_boxes(
    path_nos: &[u32],
    coords: &[f32],
    beams: &[u32],
    margin: u32,
    paths: &mut [u32],
    work: &mut [u32],
    tiles: &mut u32,
    item: &mut u32,
) -> u32
    ensures { GpBoxesMet path_nos.now coords.now beams.now margin paths.old work.old
        result tiles.new item.new paths.new work.new }
{
    let (number, all, i) = match boxes::call::make_boxes(
        path_nos, coords, beams, margin, paths, work,
    ) {
        Ok(all) => (DONE, all, 0),
        Err(refused) => (refused.why.number(), 0, refused.item),
    };
    *tiles = all;
    *item = i;
    number
}
