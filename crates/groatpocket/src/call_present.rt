// present::present: the shown part of a screen's pixels as bytes for a frame buffer.
ghost use Rattle.present.specs.Present.{PresentMet};

use panel::refusals::DONE;

pub fn gp_present(
    pixels: &[u32],
    screen: u32,
    width: u32,
    height: u32,
    stride: u32,
    bgra: u32,
    out: &mut [u8],
) -> u32
    ensures { PresentMet pixels.now screen width height stride bgra out.old result out.new }
{
    match present::present(pixels, screen, width, height, stride, bgra, out) {
        Ok(()) => DONE,
        Err(why) => why.number(),
    }
}
