// The top left part of a padded screen as bytes for a frame buffer: RGBA or BGRA, in rows of a stride.
// docs/RULES.md, "A picture on a screen".
#![tactic(auto)]

ghost use Rattle.std.specs.Prelude.{◌≡◌, ◌+◌, ◌*◌, ◌≤◌, length};
ghost use Rattle.std.proofs.lemmas.List.Edits.{sets};
ghost use Rattle.present.specs.Pixels.{bytes_each, pixel_of, row_bytes, rows_of};
ghost use Rattle.present.specs.Present.{whole_of, number_told, RowsFit, PresentMet};

use panel::refusals::Refusal;
use ppm_write::side_ok;

// Bytes to a pixel.
pub const PIXEL_BYTES: usize = 4;

// The bytes of a pixel in their order: order 0 has red first, any other has blue first.
#[tactic(auto, using(std::proofs::lemmas::Bool::Decides::nat_tests))]
fn ordered(order: u32, p: u32) -> [u8; 4]
    ensures { result ≡ pixel_of order p }
{
    let [red, green, blue, alpha] = p.to_le_bytes();
    if order == 0 {
        [red, green, blue, alpha]
    } else {
        [blue, green, red, alpha]
    }
}

// The bytes of a row, stored from at on.
fn put_row(out: &mut [u8], at: usize, row: &[u32], order: u32)
    requires { at + bytes_each * length row.now ≤ length out.old }
    ensures { out.new ≡ sets out.old at (row_bytes order row.now) }
{
    for (i, p) in row.iter().enumerate() {
        let [a, b, c, d] = ordered(order, *p);
        let to = at + PIXEL_BYTES * i;
        out[to] = a;
        out[to + 1] = b;
        out[to + 2] = c;
        out[to + 3] = d;
    }
}

// The first pixels of each of the first rows, each row a stride past the one before.
fn put_rows(
    pixels: &[u32],
    screen: usize,
    width: usize,
    height: usize,
    stride: usize,
    order: u32,
    out: &mut [u8],
)
    requires { RowsFit (length pixels.now) screen width height stride (length out.old) }
    ensures { out.new ≡ rows_of order pixels.now screen width stride height 0 out.old }
{
    for y in 0..height {
        let from = y * screen;
        let to = from + width;
        let at = y * stride;
        let row = &pixels[from..to];
        put_row(out, at, row, order);
    }
}

// Whether the screen is wide enough, its pixels are whole rows, these are enough, and the stride is.
#[tactic(auto, using(std::proofs::lemmas::Bool::Decides::nat_tests), unfolding(crate::specs::Present::whole_of))]
fn whole(n: usize, screen: u32, width: u32, height: u32, stride: u32) -> bool
    requires { 1 ≤ width }
    ensures { result ≡ whole_of n screen width height stride }
{
    width <= screen
        && n % (screen as usize) == 0
        && height as usize <= n / (screen as usize)
        && PIXEL_BYTES * (width as usize) <= stride as usize
}

// The picture, width by height, at the front of the bytes lent.
pub fn present(
    pixels: &[u32],
    screen: u32,
    width: u32,
    height: u32,
    stride: u32,
    order: u32,
    out: &mut [u8],
) -> Result<(), Refusal>
    ensures { PresentMet pixels.now screen width height stride order out.old (number_told result) out.new }
{
    if !(side_ok(width) & side_ok(height)) {
        return Err(Refusal::BadSize);
    }
    if !whole(pixels.len(), screen, width, height, stride) {
        return Err(Refusal::NotWhole);
    }
    let size = (stride as usize) * (height as usize - 1) + PIXEL_BYTES * (width as usize);
    if out.len() < size {
        return Err(Refusal::NoRoom);
    }
    put_rows(
        pixels,
        screen as usize,
        width as usize,
        height as usize,
        stride as usize,
        order,
        out,
    );
    Ok(())
}
