// Colours of four floats, red first, multiplied by their alpha: unpacked from a COLOR command's word,
// laid over a tile's pixels (src/layer.rt), and packed for the screen. fine.rs, lines 34 to 49 and 153 to 165;
// docs/RULES.md, "Coverage and colour".
#![tactic(auto)]

pub mod layer;

ghost use Rattle.std.specs.Prelude.{◌≡◌, ◌<◌};
ghost use Rattle.colours.specs.Colour.{byte_many, channel_of, colour_of, over_of, byte_of, pack_of};

use float32::pick;
use layer::{mix, share};

// One byte of a packed colour, from the bit `shift` on, as a float from 0 to 1.
pub fn channel(x: u32, shift: u32) -> f32
    requires { shift < 32 }
    ensures { result ≡ channel_of x shift }
{
    (((x >> shift) & 0xff) as f32) * (1.0 / 255.0)
}

// The colour of a COLOR command: its high byte is red and its low byte alpha.
pub fn colour(x: u32) -> [f32; 4]
    ensures { result ≡ colour_of x }
{
    [channel(x, 24), channel(x, 16), channel(x, 8), channel(x, 0)]
}

// The colour fg, covering the part ai, over the pixel px.
pub fn over(px: [f32; 4], fg: [f32; 4], ai: f32) -> [f32; 4]
    ensures { result ≡ over_of fg ai px }
{
    mix(px, share(fg, ai))
}

// 1/2 less 1/512 and 1/2^25: the two roundings of `byte` make up for what is missing.
const NEARLY_HALF: f32 = 0.498046845;

// From here to twice as much a float's last bit is worth one part of 256.
const PARTED: f32 = 32768.0;

// The bits of PARTED: those of PARTED and so many parts are so many more.
const PARTED_BITS: u32 = 0x4700_0000;

// How many parts 1 has.
const PARTS: u32 = 0x100;

// A channel as a byte. A NaN is 0, as is -0, so neither goes on. Nearly a half is added, and what is whole of the sum is
// the byte. The bits of t say how many parts the sum has, the nearest number of them: so x goes down where it is below a
// whole number and a half, and up from there on.
pub fn byte(v: f32) -> u32
    ensures { (result ≡ byte_of v) × (result < byte_many) }
{
    let low = pick(0.0 < v, v, 0.0);
    let x = pick(low < 1.0, low, 1.0) * 255.0;
    let t = x + NEARLY_HALF + PARTED;
    (f32::to_bits(t) - PARTED_BITS) / PARTS
}

// A pixel, red lowest.
pub fn pack(px: [f32; 4]) -> u32
    ensures { result ≡ pack_of px }
{
    byte(px[0]) + 0x100 * byte(px[1]) + 0x1_0000 * byte(px[2]) + 0x100_0000 * byte(px[3])
}
