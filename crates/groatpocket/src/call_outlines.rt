// outlines::outlines: whether each path's lines, in order, make closed outlines.
ghost use Rattle.groatpocket.specs.CallOutlines.{GpOutlinesMet};

use panel::kinds::{item, number};

pub fn gp_outlines(
    path_nos: &[u32],
    coords: &[f32],
    path_count: u32,
    work: &mut [u32],
    at: &mut u32,
) -> u32
    ensures { GpOutlinesMet path_nos.now coords.now path_count work.old result at.new work.new }
{
    let r = outlines::outlines(path_nos, coords, path_count, work);
    *at = item(r);
    number(r)
}
