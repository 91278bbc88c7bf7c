// backdrop::backdrop: running sums along the tile rows of each path.
ghost use Rattle.groatpocket.specs.Calls.{GpBackdropMet};

use panel::kinds::{item, number};

pub fn gp_backdrop(paths: &[u32], backdrops: &mut [i32], at: &mut u32) -> u32
    ensures { GpBackdropMet paths.now backdrops.old result at.new backdrops.new }
{
    let r = backdrop::backdrop(paths, backdrops);
    *at = item(r);
    number(r)
}
