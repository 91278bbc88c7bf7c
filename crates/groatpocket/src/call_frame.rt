// frame::frame: count, backdrop, hand-out and tiling in one call.
ghost use Rattle.panel.specs.Pieces.{pieces};
ghost use Rattle.groatpocket.specs.CallFrame.{GpFrameMet};

use frame::stage_no;
use panel::refusals::DONE;

// A frame that is done names no stage and no item.
pub fn gp_frame(
    path_nos: &[u32],
    coords: &[f32],
    paths: &[u32],
    backdrops: &mut [i32],
    stored: &mut [u32],
    tally: &mut [u32],
    refs: &mut [u32],
    segments: &mut [f32],
    tags: &mut [u32],
    stage: &mut u32,
    item: &mut u32,
    lines: &mut u32,
    made: &mut u32,
) -> u32
    ensures { GpFrameMet path_nos.now coords.now paths.now backdrops.old stored.old
        tally.old refs.old (pieces segments.old tags.old)
        result stage.new item.new lines.new made.new
        backdrops.new stored.new tally.new refs.new (pieces segments.new tags.new) }
{
    let answer = frame::frame(
        path_nos, coords, paths, backdrops, stored, tally, refs, segments, tags,
    );
    let (number, at, i, after) = match answer {
        Ok(after) => (DONE, 0, 0, after),
        Err(e) => (e.why.number(), stage_no(e.stage), e.item, e.running),
    };
    *stage = at;
    *item = i;
    *lines = after.lines;
    *made = after.refs;
    number
}
