// svg::lines: the lines of a text that is path data of SVG, written where counting reads them.
ghost use Rattle.groatpocket.specs.CallSvg.{GpSvgMet};

#[unsafe(no_mangle)]
pub extern "C" fn gp_svg_lines(
    text: &[u8],
    depth: u32,
    path: u32,
    path_nos: &mut [u32],
    coords: &mut [f32],
    lines: &mut usize,
    place: &mut usize,
) -> u32
    ensures { GpSvgMet text.now depth path path_nos.old coords.old result lines.new place.new
        path_nos.new coords.new }
{
    groatpocket::call_svg::gp_svg_lines(text, depth, path, path_nos, coords, lines, place)
}
