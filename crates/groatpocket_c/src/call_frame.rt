// frame::frame: count, backdrop, hand-out and tiling in one call.
ghost use Rattle.panel.specs.Pieces.{pieces};
ghost use Rattle.groatpocket.specs.CallFrame.{GpFrameMet};

#[unsafe(no_mangle)]
pub extern "C" fn gp_frame(
    path_nos: &[u32],
    coords: &[f32],
    paths: &[u32],
    backdrops: &mut [i32],
    stored: &mut [u32],
    tally: &mut [u32],
    refs: &mut [u32],
    segments: &mut [f32],
    tags: &mut [u32],
    stage: &mut u32,
    item: &mut u32,
    lines: &mut u32,
    made: &mut u32,
) -> u32
    ensures { GpFrameMet path_nos.now coords.now paths.now backdrops.old stored.old
        tally.old refs.old (pieces segments.old tags.old)
        result stage.new item.new lines.new made.new
        backdrops.new stored.new tally.new refs.new (pieces segments.new tags.new) }
{
    groatpocket::call_frame::gp_frame(
        path_nos, coords, paths, backdrops, stored, tally, refs, segments, tags, stage, item,
        lines, made,
    )
}
