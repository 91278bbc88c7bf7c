// svg::lines: the lines of a text that is path data of SVG, written where counting reads them.
ghost use Rattle.groatpocket.specs.CallSvg.{GpSvgMet};

use panel::refusals::DONE;

// The number; how many lines were written, none where it is refused; and the text's place, 0 where it isn't the text's fault.
pub fn gp_svg_lines(
    text: &[u8],
    depth: u32,
    path: u32,
    path_nos: &mut [u32],
    coords: &mut [f32],
    lines: &mut usize,
    place: &mut usize,
) -> u32
    ensures { GpSvgMet text.now depth path path_nos.old coords.old result lines.new place.new
        path_nos.new coords.new }
{
    let (number, written, at) = match svg::lines(text, depth, path, path_nos, coords) {
        Ok(written) => (DONE, written, 0),
        Err(refused) => (refused.why.number(), 0, refused.at),
    };
    *lines = written;
    *place = at;
    number
}
