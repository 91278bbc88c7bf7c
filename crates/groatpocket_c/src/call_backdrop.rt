// backdrop::backdrop: running sums along the tile rows of each path.
ghost use Rattle.groatpocket.specs.Calls.{GpBackdropMet};

#[unsafe(no_mangle)]
pub extern "C" fn gp_backdrop(paths: &[u32], backdrops: &mut [i32], at: &mut u32) -> u32
    ensures { GpBackdropMet paths.now backdrops.old result at.new backdrops.new }
{
    groatpocket::call_backdrop::gp_backdrop(paths, backdrops, at)
}
