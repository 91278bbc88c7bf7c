// draw::draw: from lines to pixels in one call.
ghost use Rattle.panel.specs.Pieces.{pieces};
ghost use Rattle.groatpocket.specs.CallDraw.{GpDrawMet};

use panel::refusals::DONE;

// A drawing that is done names no part and no item.
pub fn gp_draw(
    path_nos: &[u32],
    coords: &[f32],
    paths: &[u32],
    paints: &[u32],
    backdrops: &mut [i32],
    stored: &mut [u32],
    tally: &mut [u32],
    refs: &mut [u32],
    segments: &mut [f32],
    tags: &mut [u32],
    width: u32,
    cols: u32,
    rows: u32,
    words: &mut [u32],
    pixels: &mut [u32],
    stage: &mut u32,
    item: &mut u32,
    lines: &mut u32,
    made: &mut u32,
) -> u32
    ensures { GpDrawMet path_nos.now coords.now paths.now paints.now backdrops.old
        stored.old tally.old refs.old (pieces segments.old tags.old) width cols rows
        words.old pixels.old
        result stage.new item.new lines.new made.new
        backdrops.new stored.new tally.new refs.new (pieces segments.new tags.new)
        words.new pixels.new }
{
    let answer = draw::draw(
        path_nos, coords, paths, paints, backdrops, stored, tally, refs, segments, tags, width,
        cols, rows, words, pixels,
    );
    let (number, at, i, after) = match answer {
        Ok(after) => (DONE, 0, 0, after),
        Err(e) => (e.why.number(), e.part.number(), e.item, e.running),
    };
    *stage = at;
    *item = i;
    *lines = after.lines;
    *made = after.refs;
    number
}
