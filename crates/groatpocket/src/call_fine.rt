// fine::fine: the pixels of a range of screen tiles, each by its list of commands.
ghost use Rattle.groatpocket.specs.Calls.{GpFineMet};

use panel::kinds::{item, number};

pub fn gp_fine(
    words: &[u32],
    segments: &[f32],
    width: u32,
    cols: u32,
    rows: u32,
    from: u32,
    to: u32,
    pixels: &mut [u32],
    at: &mut u32,
) -> u32
    ensures { GpFineMet words.now segments.now width cols rows from to pixels.old result at.new pixels.new }
{
    let r = fine::fine(words, segments, width, cols, rows, from, to, pixels);
    *at = item(r);
    number(r)
}
