// coverage::fill: the coverage of one tile's pixels.
ghost use Rattle.groatpocket.specs.Calls.{GpFillMet};

// Even-odd where the flag isn't 0, else non-zero.
#[unsafe(no_mangle)]
pub extern "C" fn gp_fill(
    segments: &[f32],
    first: u32,
    count: u32,
    even_odd: u32,
    backdrop: i32,
    x_tile: f32,
    y_tile: f32,
    area: &mut [f32],
) -> u32
    ensures { GpFillMet segments.now first count even_odd backdrop x_tile y_tile area.old result area.new }
{
    groatpocket::call_fill::gp_fill(
        segments, first, count, even_odd, backdrop, x_tile, y_tile, area,
    )
}
