// Floats below 2^22 in size as whole numbers, by their bits: no branch, no cast, and no floor as a float. SHIFT added,
// a float lies from 2^23 to 2^24, where the floats are the whole numbers, and a pattern of bits is one more than that
// of the whole number before.
#![tactic(auto)]

ghost use Rattle.std.specs.Prelude.{◌≡◌};
ghost use Rattle.std.specs.Float.Ieee.{to_signed};
ghost use Rattle.float32.specs.Inner.{Within};
ghost use Rattle.exact.specs.Whole.{IsWhole, floor_z};
ghost use Rattle.whole.specs.Bits.{bits_of};

use float32::SHIFT;

// The bits of SHIFT: those of SHIFT and a whole number are so many more, or fewer.
pub const ZERO: u32 = 0x4B40_0000;

// The floor of an x below 2^22 in size, as a whole number, ZERO added. Of the two ways to ask, `<=` and its else are a subtraction with
// the borrow that the comparison leaves.
pub fn floor_bits(x: f32) -> u32
    requires { Within x }
    ensures { result ≡ bits_of (floor_z x) }
{
    let t = x + SHIFT;
    let step: u32 = if t - SHIFT <= x { 0 } else { 1 };
    f32::to_bits(t) - step
}

// A whole x below 2^22 in size, as a whole number.
pub fn whole_int(x: f32) -> i32
    requires { Within x × IsWhole x (to_signed 31 x) }
    ensures { result ≡ to_signed 31 x }
{
    let t = f32::to_bits(x + SHIFT);
    (t as i32) - (ZERO as i32)
}
