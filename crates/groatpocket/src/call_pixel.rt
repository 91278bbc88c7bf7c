// pixel::coverage_at and pixel::colour_at: one pixel of a tile, its coverage by a fill and its colour
// under a list of commands.
ghost use Rattle.groatpocket.specs.CallPixel.{GpPixelAreaMet, GpPixelMet};

use panel::refusals::DONE;

// What is refused leaves behind the pointer what stood there.

// Even-odd where the flag isn't 0, else non-zero.
pub fn gp_pixel_area(
    segments: &[f32],
    first: u32,
    count: u32,
    even_odd: u32,
    backdrop: i32,
    x_tile: f32,
    y_tile: f32,
    column: u32,
    row: u32,
    area: &mut f32,
) -> u32
    ensures { GpPixelAreaMet segments.now first count even_odd backdrop x_tile y_tile column row area.old result area.new }
{
    let covered = pixel::coverage_at(
        segments,
        first,
        count,
        even_odd != 0,
        backdrop,
        x_tile,
        y_tile,
        column,
        row,
    );
    match covered {
        Ok(a) => {
            *area = a;
            DONE
        }
        Err(why) => why.number(),
    }
}

pub fn gp_pixel(
    words: &[u32],
    segments: &[f32],
    tile: u32,
    column: u32,
    row: u32,
    pixel: &mut u32,
) -> u32
    ensures { GpPixelMet words.now segments.now tile column row pixel.old result pixel.new }
{
    match pixel::colour_at(words, segments, tile, column, row) {
        Ok(px) => {
            *pixel = px;
            DONE
        }
        Err(why) => why.number(),
    }
}
