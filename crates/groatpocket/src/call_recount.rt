// recount::recount: one path's lines counted again, into its own tiles alone.
ghost use Rattle.groatpocket.specs.CallRecount.{GpRecountMet};

use panel::refusals::DONE;

pub fn gp_recount(
    path: u32,
    line_nos: &[u32],
    path_nos: &[u32],
    coords: &[f32],
    paths: &[u32],
    backdrops: &mut [i32],
    counts: &mut [u32],
    refs: &mut [u32],
    kept_backdrops: &mut [i32],
    kept_counts: &mut [u32],
    made: &mut u32,
    at: &mut u32,
) -> u32
    ensures { GpRecountMet path line_nos.now path_nos.now coords.now paths.now backdrops.old
        counts.old refs.old
        kept_backdrops.old kept_counts.old
        result at.new made.new backdrops.new counts.new refs.new kept_backdrops.new kept_counts.new }
{
    let answer = recount::recount(
        path,
        line_nos,
        path_nos,
        coords,
        paths,
        backdrops,
        counts,
        refs,
        kept_backdrops,
        kept_counts,
    );
    let (number, item, refs_made) = match answer {
        Ok(refs_made) => (DONE, 0, refs_made),
        Err(e) => (e.why.number(), e.item, e.made),
    };
    *made = refs_made;
    *at = item;
    number
}
