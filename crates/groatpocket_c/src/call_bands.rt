// bands::fine_rows: the pixels of a band of the screen's tile rows, in a slice of their own.
ghost use Rattle.groatpocket.specs.Calls.{GpFineRowsMet};

#[unsafe(no_mangle)]
pub extern "C" fn gp_fine_rows(
    words: &[u32],
    segments: &[f32],
    width: u32,
    cols: u32,
    rows: u32,
    first: u32,
    end: u32,
    pixels: &mut [u32],
    at: &mut u32,
) -> u32
    ensures { GpFineRowsMet words.now segments.now width cols rows first end pixels.old result at.new pixels.new }
{
    groatpocket::call_bands::gp_fine_rows(
        words, segments, width, cols, rows, first, end, pixels, at,
    )
}
