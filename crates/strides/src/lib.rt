// A walk's steps in whole numbers, for a line that was checked: z by the bits that a shift leaves, column, row and tile
// by sums of whole numbers, with no cast and no branch that can't be foretold. It says where a step falls, or nothing:
// what is out of the ordinary is left to `walk::step`. Where it says a tile, that is the step's.
#![tactic(auto)]

ghost use Rattle.std.specs.Prelude.{◌≡◌, ◌<◌, true, false, ◌&&◌};
ghost use Rattle.std.specs.Float.Ieee.{lt};
ghost use Rattle.float32.specs.Inner.{limit};
ghost use Rattle.panel.specs.Widths.{step_range};
ghost use Rattle.exact.specs.Reach.{Starts};
ghost use Rattle.walk.specs.Step.{Boxed};
ghost use Rattle.strides.specs.Strides.{strides_of, held_of, own_at, Room, Before, BitsMet, LastMet, StrideMet, LaidMet};
ghost use Rattle.strides.specs.Words.{word_of};

use float32::pick;
use panel::kinds::Path;
use walk::kinds::Pace;
use whole::{ZERO, floor_bits};
pub use words::{word_marks, word_of, word_tile};

mod words;

// Below it in size a float is a whole number by its bits.
const NEAR: f32 = 4194304.0;

// So far from 0 is no z in a box.
const FAR: f32 = 3145728.0;

// A line's numbers over its path's box, whole. z stands with ZERO added, as `floor_bits` gives it. Columns go from the
// box's left edge where x rises and from its right edge where it falls: the column is z - low, the row top + i - z, and
// z is edge in the last column. The tile is base, the first one of the box's second row, and the rows above in tiles,
// then up by the column, or down: twice is 2 or 0, and back says from where. Nothing branches on which it is, as x falls
// as often as it rises.
#[derive(Clone, Copy)]
pub struct Strides {
    pub twice: u32,
    pub back: u32,
    pub low: u32,
    pub edge: u32,
    pub top: u32,
    pub base: u32,
    pub width: u32,
    pub height: u32,
}

// A step's word (`words.rt`), its z, and whether the step is in the box and as told. Where it isn't, word and z say
// nothing.
#[derive(Clone, Copy)]
pub struct Laid {
    pub word: u32,
    pub z: u32,
    pub good: bool,
}

// Whether `floor_bits` takes x.
fn near(x: f32) -> bool
    ensures { result ≡ (lt x (limit false) && lt (limit true) x) }
{
    (x < NEAR) & (-NEAR < x)
}

// The floor of v, as `floor_bits` gives it; nothing where v is far off.
fn bits_near(v: f32) -> Option<u32>
    ensures { BitsMet v result }
{
    if near(v) { Some(floor_bits(v)) } else { None }
}

// A line's numbers, of its walk and its path's box.
pub fn strides_of(p: Pace, b: Path) -> Strides
    requires { Boxed b × Starts p.sign p.x0 p.y0 }
    ensures { result ≡ strides_of p b }
{
    let rises = 0.0 < p.sign;
    let col = floor_bits(p.x0);
    let row = floor_bits(p.y0);
    let width = b.x1 - b.x0;
    let height = b.y1 - b.y0;
    let low = pick(rises, ZERO + ZERO + b.x0 - col, col + 1 - b.x1);
    let edge = pick(rises, low + width - 1, low);
    let top = row - b.y0;
    let base = b.first + width;
    let back = pick(rises, width, 1);
    let twice = (p.sign + 1.0) as u32;
    Strides {
        twice,
        back,
        low,
        edge,
        top,
        base,
        width,
        height,
    }
}

// What step i's z is held against: z of the step before, or what stands for it at step 0, equal to that step's z where
// its top edge is crossed. Nothing where z is far off.
pub fn last_of(p: Pace, i: u32) -> Option<u32>
    requires { i < step_range }
    ensures { LastMet p i result }
{
    let f = i as f32;
    if i == 0 {
        let z = bits_near(p.a * f + p.b)?;
        return Some(pick(p.on_top, z, z - 1));
    }
    bits_near(p.a * (f - 1.0) + p.b)
}

// Step i's tile, whether it marks the tile right of it, and its z; nothing of a step that is to be looked at in another
// way.
pub fn stride_at(p: Pace, b: Path, g: Strides, i: u32, last: u32) -> Option<(u32, bool, u32)>
    requires { Boxed b × Starts p.sign p.x0 p.y0 × (i < step_range) × (g ≡ strides_of p b) × Before p i last }
    ensures { StrideMet p b i result }
{
    let f = i as f32;
    let z = bits_near(p.a * f + p.b)?;
    let x = z.wrapping_sub(g.low);
    let y = (g.top + i).wrapping_sub(z);
    if (x >= g.width) | (y >= g.height) {
        return None;
    }
    let t = g.base + y * g.width;
    let own = t + g.twice * x - (x + g.back);
    let marks = (z == last) & (z != g.edge);
    Some((own, marks, z))
}

// v, or what no z in a box is where v is further from 0, or no number.
fn held(v: f32) -> f32
    ensures { result ≡ held_of v }
{
    let u = pick(v < FAR, v, FAR);
    pick(-FAR < u, u, -FAR)
}

// The word of a step on the tile in that column and row.
fn word_at(g: Strides, col: u32, row: u32, marks: bool) -> u32
    requires { Room g col row }
    ensures { result ≡ word_of (own_at g col row) marks }
{
    let rises = g.twice == 2;
    let t = g.base - g.back + row * g.width;
    let own = t + pick(rises, col, 0) - pick(rises, 0, col);
    word_of(own, marks)
}

// Step i in the form that is done four at a time: no branch, and nothing wraps where the step is outside the box.
pub fn laid_at(p: Pace, b: Path, g: Strides, i: u32, last: u32) -> Laid
    requires { Boxed b × (b.x0 < b.x1) × Starts p.sign p.x0 p.y0 × (i < step_range) × (g ≡ strides_of p b) }
    ensures { LaidMet p b i last result }
{
    let f = (i as i32) as f32;
    let z = floor_bits(held(p.a * f + p.b));
    let x = z.wrapping_sub(g.low);
    let y = (g.top + i).wrapping_sub(z);
    let good = (x < g.width) & (y < g.height);
    let col = pick(good, x, 0);
    let row = pick(good, y, 0);
    let crosses = (z == last) & (z != g.edge);
    Laid {
        word: word_at(g, col, row, crosses),
        z,
        good,
    }
}
