// path_count::count: a batch of lines counted into tiles and references.
ghost use Rattle.groatpocket.specs.Calls.{GpCountMet};

use panel::kinds::Running;
use panel::refusals::DONE;

pub fn gp_count(
    path_nos: &[u32],
    coords: &[f32],
    paths: &[u32],
    backdrops: &mut [i32],
    counts: &mut [u32],
    refs: &mut [u32],
    end: u32,
    lines: &mut u32,
    made: &mut u32,
    at: &mut u32,
) -> u32
    ensures { GpCountMet lines.old made.old end path_nos.now coords.now paths.now
        backdrops.old counts.old refs.old
        result at.new lines.new made.new backdrops.new counts.new refs.new }
{
    let running = Running {
        lines: *lines,
        refs: *made,
    };
    let answer = path_count::count(
        running, end, path_nos, coords, paths, backdrops, counts, refs,
    );
    let (number, item, after) = match answer {
        Ok(after) => (DONE, 0, after),
        Err(stopped) => (stopped.why.number(), stopped.item, stopped.running),
    };
    *lines = after.lines;
    *made = after.refs;
    *at = item;
    number
}
