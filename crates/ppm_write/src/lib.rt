// Writes a picture as a binary Netpbm P6 file into bytes lent. docs/RULES.md, "A picture on paper".
// The file is specs/File.antt's file_of; what a call answers is specs/Write.antt's write_of.
#![tactic(auto)]

ghost use Rattle.std.specs.Prelude.{◌≡◌, ◌+◌, ◌≤◌, length};
ghost use Rattle.ppm_write.specs.File.{decimal, field_of, head_of, raster_of};
ghost use Rattle.ppm_write.specs.Write.{Put, side_ok, WriteMet};
ghost use Rattle.ppm_write.specs.Written.{written_told};

use panel::limits;
use panel::refusals::Refusal;

// The largest value of a colour's byte, which the header names.
pub const LARGEST: u32 = 255;

const TEN: u32 = 10;

// Bytes of the file to a pixel, and those of the header that aren't digits of its size: "P6", four
// bytes of white space, "255".
pub const PIXEL_BYTES: usize = 3;

const FIXED_BYTES: usize = 9;

// A width or a height that a picture may have.
pub fn side_ok(n: u32) -> bool
    ensures { result ≡ side_ok n }
{
    (1..=limits::SIDE_MOST).contains(&n)
}

// How many decimal digits n has.
fn digits(n: u32) -> usize
    ensures { result ≡ length (decimal n) }
{
    if n < TEN {
        return 1;
    }
    digits(n / TEN) + 1
}

// The decimal digits of n, stored from at on; the place after them.
fn put_number(out: &mut [u8], at: usize, n: u32) -> usize
    requires { at + length (decimal n) ≤ length out.old }
    ensures { Put out.old at (decimal n) result out.new }
{
    if n < TEN {
        out[at] = b'0' + n as u8;
        return at + 1;
    }
    let last = put_number(out, at, n / TEN);
    out[last] = b'0' + (n % TEN) as u8;
    last + 1
}

// A number of the header and the byte after it, stored from at on; the place after them.
fn put_field(out: &mut [u8], at: usize, n: u32, after: u8) -> usize
    requires { at + length (field_of n after) ≤ length out.old }
    ensures { Put out.old at (field_of n after) result out.new }
{
    let last = put_number(out, at, n);
    out[last] = after;
    last + 1
}

// The header, stored at the front; the place after it.
fn put_head(out: &mut [u8], width: u32, height: u32) -> usize
    requires { length (head_of width height) ≤ length out.old }
    ensures { Put out.old 0 (head_of width height) result out.new }
{
    out[0] = b'P';
    out[1] = b'6';
    out[2] = b'\n';
    let a = put_field(out, 3, width, b' ');
    let b = put_field(out, a, height, b'\n');
    put_field(out, b, LARGEST, b'\n')
}

// Red, green and blue of each pixel, stored from at on; the place after them.
fn put_pixels(out: &mut [u8], at: usize, pixels: &[u32]) -> usize
    requires { at + length (raster_of pixels.now) ≤ length out.old }
    ensures { Put out.old at (raster_of pixels.now) result out.new }
{
    for (i, p) in pixels.iter().enumerate() {
        // a pixel's colours are its bytes, red the lowest
        let [red, green, blue, _] = p.to_le_bytes();
        let to = at + PIXEL_BYTES * i;
        out[to] = red;
        out[to + 1] = green;
        out[to + 2] = blue;
    }
    at + PIXEL_BYTES * pixels.len()
}

// The file of a picture, at the front of the bytes lent; how many bytes it has.
pub fn write(pixels: &[u32], width: u32, height: u32, out: &mut [u8]) -> Result<usize, Refusal>
    ensures { WriteMet pixels.now width height out.old (written_told result) out.new }
{
    if !(side_ok(width) & side_ok(height)) {
        return Err(Refusal::BadSize);
    }
    if pixels.len() != width as usize * height as usize {
        return Err(Refusal::NotWhole);
    }
    let size = FIXED_BYTES + digits(width) + digits(height) + PIXEL_BYTES * pixels.len();
    if out.len() < size {
        return Err(Refusal::NoRoom);
    }
    let at = put_head(out, width, height);
    Ok(put_pixels(out, at, pixels))
}
