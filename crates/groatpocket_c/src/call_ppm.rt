// ppm_write::write and ppm_read::read: a picture as a binary Netpbm P6 file, and back.
ghost use Rattle.groatpocket.specs.CallPpm.{GpWriteMet, GpReadMet};

#[unsafe(no_mangle)]
pub extern "C" fn gp_ppm_write(
    pixels: &[u32],
    width: u32,
    height: u32,
    out: &mut [u8],
    size: &mut usize,
) -> u32
    ensures { GpWriteMet pixels.now width height out.old result size.new out.new }
{
    groatpocket::call_ppm::gp_ppm_write(pixels, width, height, out, size)
}

#[unsafe(no_mangle)]
pub extern "C" fn gp_ppm_read(file: &[u8], out: &mut [u8], width: &mut u32, height: &mut u32) -> u32
    ensures { GpReadMet file.now out.old result width.new height.new out.new }
{
    groatpocket::call_ppm::gp_ppm_read(file, out, width, height)
}
