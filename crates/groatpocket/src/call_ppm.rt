// ppm_write::write and ppm_read::read: a picture as a binary Netpbm P6 file, and back.
ghost use Rattle.groatpocket.specs.CallPpm.{GpWriteMet, GpReadMet};

use panel::refusals::DONE;

// The number, and how many bytes were written: none where it is refused.
pub fn gp_ppm_write(
    pixels: &[u32],
    width: u32,
    height: u32,
    out: &mut [u8],
    size: &mut usize,
) -> u32
    ensures { GpWriteMet pixels.now width height out.old result size.new out.new }
{
    let (number, written) = match ppm_write::write(pixels, width, height, out) {
        Ok(written) => (DONE, written),
        Err(why) => (why.number(), 0),
    };
    *size = written;
    number
}

// The number, and the size read: 0 by 0 where it is refused.
pub fn gp_ppm_read(file: &[u8], out: &mut [u8], width: &mut u32, height: &mut u32) -> u32
    ensures { GpReadMet file.now out.old result width.new height.new out.new }
{
    let (number, w, h) = match ppm_read::read(file, out) {
        Ok((w, h)) => (DONE, w, h),
        Err(why) => (why.number(), 0, 0),
    };
    *width = w;
    *height = h;
    number
}
