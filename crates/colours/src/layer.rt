// A colour laid over a tile's pixels, row by row. A pixel's four floats are written out, and so are a row's
// pixels: with no loop over pixels the compiler keeps a pixel in one register. Of a row whose areas are all
// the same, what is added is computed once.
ghost use Rattle.std.specs.Prelude.{◌≡◌, true, false, List, ℕ, ◌+◌, ◌≤◌, ◌<◌, length, get_or, Float};
ghost use Rattle.std.specs.Float.{nan};
ghost use Rattle.float32.specs.Meaning.{sign_of};
ghost use Rattle.lists.specs.Grid.{mapi, within};
ghost use Rattle.sides.specs.Tile.{tile_width, tile_height, tile_size, row_start, row_end};
ghost use Rattle.colours.specs.Colour.{composite_of};
ghost use Rattle.colours.specs.Layer.{share_of, mix_of, mixed, each, onto, meant, NoMinus, Level};

use crate::over;
use sides::{TILE_HEIGHT, TILE_SIZE, TILE_WIDTH};

// What is added to a pixel of which the colour fg covers the part ai.
pub fn share(fg: [f32; 4], ai: f32) -> [f32; 4]
    ensures { result ≡ share_of fg ai }
{
    [fg[0] * ai, fg[1] * ai, fg[2] * ai, fg[3] * ai]
}

// What a pixel is after that: of it 1 less the alpha added is kept.
pub fn mix(px: [f32; 4], more: [f32; 4]) -> [f32; 4]
    ensures { result ≡ mix_of more px }
{
    let keep = 1.0 - more[3];
    [
        px[0] * keep + more[0],
        px[1] * keep + more[1],
        px[2] * keep + more[2],
        px[3] * keep + more[3],
    ]
}

// What a pixel may become: by its place, and by what it is.
pub trait Lay {
    ghost laid: { Self → ℕ → List Float → List Float };

    ghost ready: { Self → Type 0 };

    fn lay(&self, i: usize, px: [f32; 4]) -> [f32; 4]
        requires { ready self.now × (i < tile_size) }
        ensures { result ≡ laid self.now i px };
}

// The same is added to each pixel.
#[derive(Clone, Copy)]
pub struct Same {
    pub more: [f32; 4],
}

impl Lay for Same {
    ghost laid = { λ s. mixed s.more };

    ghost ready = { λ s. Unit {0} };

    fn lay(&self, i: usize, px: [f32; 4]) -> [f32; 4] {
        mix(px, self.more)
    }
}

// The colour fg over each pixel, by its area.
#[derive(Clone, Copy)]
pub struct Each<'a> {
    pub fg: [f32; 4],
    pub area: &'a [f32],
}

impl<'a> Lay for Each<'a> {
    ghost laid = { λ s. each s.area.now s.fg };

    ghost ready = { λ s. length s.area.now ≡ tile_size };

    fn lay(&self, i: usize, px: [f32; 4]) -> [f32; 4] {
        over(px, self.fg, self.area[i])
    }
}

// The colour fg over `one`, put down as each pixel, by its area.
#[derive(Clone, Copy)]
pub struct Onto<'a> {
    pub one: [f32; 4],
    pub fg: [f32; 4],
    pub area: &'a [f32],
}

impl<'a> Lay for Onto<'a> {
    ghost laid = { λ s. onto s.area.now s.fg s.one };

    ghost ready = { λ s. length s.area.now ≡ tile_size };

    fn lay(&self, i: usize, px: [f32; 4]) -> [f32; 4] {
        over(self.one, self.fg, self.area[i])
    }
}

// Pixel i.
pub fn one<L: Lay>(rgba: &mut [[f32; 4]; TILE_SIZE], i: usize, layer: &L)
    requires { L.ready layer.now × (i < tile_size) }
    ensures { rgba.new ≡ mapi (within i (i + 1) (L.laid layer.now)) rgba.old }
{
    let next = layer.lay(i, rgba[i]);
    rgba[i] = next;
}

// Four pixels from i on.
pub fn four<L: Lay>(rgba: &mut [[f32; 4]; TILE_SIZE], i: usize, layer: &L)
    requires { L.ready layer.now × (i + 4 ≤ tile_size) }
    ensures { rgba.new ≡ mapi (within i (i + 4) (L.laid layer.now)) rgba.old }
{
    one(rgba, i, layer);
    one(rgba, i + 1, layer);
    one(rgba, i + 2, layer);
    one(rgba, i + 3, layer);
}

// A row of pixels from i on.
pub fn row<L: Lay>(rgba: &mut [[f32; 4]; TILE_SIZE], i: usize, layer: &L)
    requires { L.ready layer.now × (i + tile_width ≤ tile_size) }
    ensures { rgba.new ≡ mapi (within i (i + tile_width) (L.laid layer.now)) rgba.old }
{
    four(rgba, i, layer);
    four(rgba, i + 4, layer);
    four(rgba, i + 8, layer);
    four(rgba, i + 12, layer);
}

// Whether an area is v. Neither has a minus sign: of two zeros `==` can't tell which is -0.
pub fn level(a: f32, v: f32) -> bool
    requires { (sign_of a ≡ false) × (sign_of v ≡ false) }
    ensures { result ≡ true → a ≡ v }
{
    a == v
}

// Whether four areas from i on are.
pub fn four_level(area: &[f32], i: usize, v: f32) -> bool
    requires { (i + 4 ≤ length area.now) × NoMinus area.now × (sign_of v ≡ false) }
    ensures { result ≡ true → (get_or area.now i nan ≡ v) × (get_or area.now (i + 1) nan ≡ v)
        × (get_or area.now (i + 2) nan ≡ v) × (get_or area.now (i + 3) nan ≡ v) }
{
    level(area[i], v) & level(area[i + 1], v) & level(area[i + 2], v) & level(area[i + 3], v)
}

// Whether a row's areas, from i on, are all the same.
pub fn all_level(area: &[f32], i: usize) -> bool
    requires { (i + tile_width ≤ length area.now) × NoMinus area.now }
    ensures { result ≡ true → Level area.now i }
{
    let v = area[i];
    four_level(area, i, v)
        & four_level(area, i + 4, v)
        & four_level(area, i + 8, v)
        & four_level(area, i + 12, v)
}

// The colour over row y, whose areas are all the same: what is added is computed once. A flat row stays flat.
pub fn over_level(
    rgba: &mut [[f32; 4]; TILE_SIZE],
    flat: &[bool; TILE_HEIGHT],
    y: usize,
    fg: [f32; 4],
    area: &[f32],
)
    requires { (y < tile_height) × (length rgba.old ≡ tile_size) × (length area.now ≡ tile_size) × Level area.now (row_start y) }
    ensures { (length rgba.new ≡ tile_size)
        × (meant flat.now rgba.new ≡ mapi (within (row_start y) (row_end y) (each area.now fg)) (meant flat.now rgba.old)) }
{
    let i = TILE_WIDTH * y;
    let more = share(fg, area[i]);
    if flat[y] {
        one(rgba, i, &Same { more })
    } else {
        row(rgba, i, &Same { more })
    }
}

// The colour over row y, whose areas differ: the row is not flat then.
pub fn over_slope(
    rgba: &mut [[f32; 4]; TILE_SIZE],
    flat: &mut [bool; TILE_HEIGHT],
    y: usize,
    fg: [f32; 4],
    area: &[f32],
)
    requires { (y < tile_height) × (length rgba.old ≡ tile_size) × (length area.now ≡ tile_size) }
    ensures { (length rgba.new ≡ tile_size)
        × (meant flat.new rgba.new ≡ mapi (within (row_start y) (row_end y) (each area.now fg)) (meant flat.old rgba.old)) }
{
    let i = TILE_WIDTH * y;
    if flat[y] {
        let first = rgba[i];
        flat[y] = false;
        row(
            rgba,
            i,
            &Onto {
                one: first,
                fg,
                area,
            },
        )
    } else {
        row(rgba, i, &Each { fg, area })
    }
}

// The colour over row y, flat or not. Whether its areas are all the same is asked first and once, so that the answer
// goes to one branch: the compiler then compares four areas at a time.
pub fn over_any(
    rgba: &mut [[f32; 4]; TILE_SIZE],
    flat: &mut [bool; TILE_HEIGHT],
    y: usize,
    fg: [f32; 4],
    area: &[f32],
)
    requires { (y < tile_height) × (length rgba.old ≡ tile_size) × (length area.now ≡ tile_size) × NoMinus area.now }
    ensures { (length rgba.new ≡ tile_size)
        × (meant flat.new rgba.new ≡ mapi (within (row_start y) (row_end y) (each area.now fg)) (meant flat.old rgba.old)) }
{
    if all_level(area, TILE_WIDTH * y) {
        over_level(rgba, flat, y, fg, area)
    } else {
        over_slope(rgba, flat, y, fg, area)
    }
}

// The colour over each of a tile's pixels, by its coverage. Of a flat row the first pixel stands for all.
pub fn composite(
    rgba: &mut [[f32; 4]; TILE_SIZE],
    flat: &mut [bool; TILE_HEIGHT],
    area: &[f32],
    fg: [f32; 4],
)
    requires { (length rgba.old ≡ tile_size) × (length area.now ≡ tile_size) × NoMinus area.now }
    ensures { (length rgba.new ≡ tile_size)
        × (meant flat.new rgba.new ≡ composite_of area.now fg (meant flat.old rgba.old)) }
{
    for y in 0..TILE_HEIGHT {
        over_any(rgba, flat, y, fg, area);
    }
}
