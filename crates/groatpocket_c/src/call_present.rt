// present::present: the shown part of a screen's pixels as bytes for a frame buffer.
ghost use Rattle.present.specs.Present.{PresentMet};

#[unsafe(no_mangle)]
pub extern "C" fn gp_present(
    pixels: &[u32],
    screen: u32,
    width: u32,
    height: u32,
    stride: u32,
    bgra: u32,
    out: &mut [u8],
) -> u32
    ensures { PresentMet pixels.now screen width height stride bgra out.old result out.new }
{
    groatpocket::call_present::gp_present(pixels, screen, width, height, stride, bgra, out)
}
