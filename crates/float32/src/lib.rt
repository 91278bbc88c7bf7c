// Rust's methods and casts of `f32`, as functions (docs/RULES.md, "Float meanings"). Each is total and
// has no `requires`. Its contract says its result by a definition of specs/Meaning.antt, or by the
// cast that lib.Ieee has.
#![tactic(auto)]

ghost use Rattle.std.specs.Prelude.{◌≡◌, cond, ◌^◌, ◌≤◌, pos, nat_abs};
ghost use Rattle.std.specs.Float.Ieee as Ieee;
ghost use Rattle.std.specs.Float.{binary32};
ghost use Rattle.std.specs.Float.Ieee.Scale.{finite};
ghost use Rattle.float32.specs.Meaning.{trunc_of, floor_of, ceil_of, round_of, abs_of, signum_of, copysign_of, min_of, max_of, clamp_of};
ghost use Rattle.float32.specs.Inner.{lost_of, Within};

// x without its sign.
pub fn abs(x: f32) -> f32
    ensures { result ≡ abs_of x }
{
    if x != x {
        x
    } else {
        f32::from_bits(f32::to_bits(x) % 0x8000_0000)
    }
}

// `if t { x } else { y }`, as a call: what makes the choice has no branches that meet, in its proof and in the
// compiled code; which of two numbers is the smaller can't be foretold.
pub fn pick<T: Copy>(t: bool, x: T, y: T) -> T
    ensures { result ≡ cond t x y }
{
    if t { x } else { y }
}

// The smaller of two; of two zeros -0 if either is.
pub fn min(a: f32, b: f32) -> f32
    ensures { result ≡ min_of a b }
{
    if b == a {
        if f32::to_bits(b) < 0x8000_0000 { a } else { b }
    } else if a != a {
        b
    } else {
        pick(b < a, b, a)
    }
}

// The larger of two; of two zeros +0 if either is.
pub fn max(a: f32, b: f32) -> f32
    ensures { result ≡ max_of a b }
{
    if a == b {
        if f32::to_bits(a) < 0x8000_0000 { a } else { b }
    } else if a != a {
        b
    } else {
        pick(a < b, b, a)
    }
}

// x brought within lo ..= hi.
pub fn clamp(x: f32, lo: f32, hi: f32) -> f32
    ensures { result ≡ clamp_of x lo hi }
{
    if lo <= hi {
        if x < lo {
            lo
        } else if hi < x {
            hi
        } else {
            x
        }
    } else {
        x
    }
}

// 1 with the sign of x.
pub fn signum(x: f32) -> f32
    ensures { result ≡ signum_of x }
{
    let no_number = x != x;
    if no_number {
        x
    } else if f32::to_bits(x) < 0x8000_0000 {
        1.0
    } else {
        -1.0
    }
}

// The size of `magnitude` with the sign of `sign`, of which a NaN counts as plus.
pub fn copysign(magnitude: f32, sign: f32) -> f32
    ensures { result ≡ copysign_of magnitude sign }
{
    let a = abs(magnitude);
    if sign != sign {
        a
    } else if f32::to_bits(sign) < 0x8000_0000 {
        a
    } else {
        -a
    }
}

// x without its fraction. With the exponent's field e from 127 to 149, x is 1 or more in size, and
// the lowest 150 - e digits of its bit pattern are the fraction. Below 127 all but the sign goes.
pub fn trunc(x: f32) -> f32
    ensures { result ≡ trunc_of x }
{
    if x != x {
        return x;
    }
    let b: u32 = f32::to_bits(x);
    let e: u32 = (b >> 23) % 256;
    if e < 150 {
        let k: u32 = if e < 127 { 31 } else { 150 - e };
        f32::from_bits(b - b % (1u32 << k))
    } else {
        x
    }
}

// Below NEAR in size x + SHIFT lies from 2^23 to 2^24, where the floats are the whole numbers: SHIFT
// taken off again, a whole number less than 1 away from x is left. Most numbers come this way, with no
// bits and no shift.
const NEAR: f32 = 4194304.0;

pub const SHIFT: f32 = 12582912.0;

// The largest whole number that is at most x, at any size.
fn floor_far(x: f32) -> f32
    ensures { result ≡ floor_of x }
{
    let t = trunc(x);
    if x < t { t - 1.0 } else { t }
}

// The largest whole number that is at most x, of an x below NEAR in size. A whole x, -0 too, is its own.
// The choices are masks and a minimum in the compiled code, with no branch.
pub fn floor_near(x: f32) -> f32
    requires { Within x }
    ensures { result ≡ floor_of x }
{
    let r = (x + SHIFT) - SHIFT;
    let step = if x < r { 1.0 } else { 0.0 };
    let below = r - step;
    if below < x { below } else { x }
}

// The largest whole number that is at most x.
pub fn floor(x: f32) -> f32
    ensures { result ≡ floor_of x }
{
    if (x < NEAR) & (-NEAR < x) {
        floor_near(x)
    } else {
        floor_far(x)
    }
}

// Whether x is its own floor, as a whole number is, and an infinity. Near 0 the shift up and back leaves x just
// where x is whole, so that none of `floor`'s choices is made: an add, a subtraction and a comparison.
pub fn is_whole(x: f32) -> bool
    ensures { result ≡ Ieee.eq x (floor_of x) }
{
    if (x < NEAR) & (-NEAR < x) {
        x == (x + SHIFT) - SHIFT
    } else {
        x == floor_far(x)
    }
}

// The smallest whole number that is at least x.
pub fn ceil(x: f32) -> f32
    ensures { result ≡ ceil_of x }
{
    -floor(-x)
}

// From here up every float is a whole number.
const WHOLE: f32 = 8388608.0;

// The whole number nearest to x, halves away from zero: of x's size, with the sign's bit put back. WHOLE
// added and taken off again, the nearest whole number is left, of two the even one, so that one more is
// due where a half was cut.
pub fn round(x: f32) -> f32
    ensures { result ≡ round_of x }
{
    if (x < WHOLE) & (-WHOLE < x) {
        let b: u32 = f32::to_bits(x);
        let low: u32 = b % 0x8000_0000;
        let size = f32::from_bits(low);
        let even = (size + WHOLE) - WHOLE;
        let n = even + pick(0.5 <= size - even, 1.0, 0.0);
        f32::from_bits(f32::to_bits(n) + (b - low))
    } else {
        x
    }
}

// x `as u32`: cut toward zero, brought to the nearest end of the range, and 0 for a NaN. A pattern
// below that of 2^31 is that of a number from 0 up: its 24 digits times 2^(e - 150). Where e is below
// 127 that is below 1, and the shift by 31 leaves nothing. At any size, by its bits.
fn to_u32_far(x: f32) -> u32
    ensures { result ≡ Ieee.to_unsigned 32 x }
{
    if x != x {
        return 0;
    }
    let b: u32 = f32::to_bits(x);
    let digits: u32 = b % 0x80_0000 + 0x80_0000;
    if b < 0x4f00_0000 {
        let e: u32 = b >> 23;
        let k: u32 = if e < 127 { 31 } else { 157 - e };
        (digits * 128) >> k
    } else if b < 0x4f80_0000 {
        digits * 256
    } else if b < 0x8000_0000 {
        4294967295
    } else {
        0
    }
}

// x `as u32`. A whole x near 0 is one as it is.
pub fn to_u32(x: f32) -> u32
    ensures { result ≡ Ieee.to_unsigned 32 x }
{
    let r = (x + SHIFT) - SHIFT;
    if (x == r) & ((x < NEAR) & (0.0 < x)) {
        r as u32
    } else {
        to_u32_far(x)
    }
}

// x `as i32`: cut toward zero, brought to the nearest end of the range, and 0 for a NaN. At any size, by
// its bits.
fn to_i32_far(x: f32) -> i32
    ensures { result ≡ Ieee.to_signed 31 x }
{
    if x != x {
        return 0;
    }
    let b: u32 = f32::to_bits(x);
    let e: u32 = (b >> 23) % 256;
    if e < 158 {
        let k: u32 = if e < 127 { 31 } else { 157 - e };
        let n: u32 = ((b % 0x80_0000 + 0x80_0000) * 128) >> k;
        if b < 0x8000_0000 {
            n as i32
        } else {
            0 - (n as i32)
        }
    } else if b < 0x8000_0000 {
        2147483647
    } else {
        -2147483648
    }
}

// x `as i32`. A whole x near 0, as a walk's columns and rows are, is one as it is. r is no -0.
pub fn to_i32(x: f32) -> i32
    ensures { result ≡ Ieee.to_signed 31 x }
{
    let r = (x + SHIFT) - SHIFT;
    if (x == r) & ((x < NEAR) & (-NEAR < x)) {
        r as i32
    } else {
        to_i32_far(x)
    }
}

// How many of n's lowest binary digits an `f32`, which keeps 24, has no room for. The zeros above
// n's top bit tell: there are 8 above 24 digits, and each one fewer is a digit lost.
fn lost(n: u32) -> u32
    ensures { result ≡ lost_of n }
{
    let zeros: u32 = u32::leading_zeros(n);
    if zeros < 8 { 8 - zeros } else { 0 }
}

// n rounded once: to the nearest number of units of 2^k, the even one of two that are as near. The
// number kept has its leading digit at 2^23, where the exponent's field begins, and adds one to that
// field; one of 2^24 adds one more.
fn rounded(n: u32, k: u32) -> f32
    requires { (2 ^ 24 ≤ n) × (k ≡ lost_of n) }
    ensures { result ≡ Ieee.of_int binary32 (pos n) }
{
    let unit: u32 = 1u32 << k;
    let q: u32 = n >> k;
    let rest: u32 = n % unit;
    let kept: u32 = if unit < rest * 2 + q % 2 { q + 1 } else { q };
    f32::from_bits((149 + k) * 0x80_0000 + kept)
}

// n `as f32`: the nearest `f32`, the even one of two that are as near. Up to 2^24 n is one.
pub fn of_u32(n: u32) -> f32
    ensures { result ≡ Ieee.of_int binary32 (pos n) }
{
    if n <= 0x100_0000 {
        n as f32
    } else {
        rounded(n, lost(n))
    }
}

// The size of n, that of the lowest too.
pub fn size_of(n: i32) -> u32
    ensures { result ≡ nat_abs n }
{
    n.unsigned_abs()
}

// n `as f32`, of a number with a sign: its size's, and the sign.
pub fn of_i32(n: i32) -> f32
    ensures { result ≡ Ieee.of_int binary32 n }
{
    let size = of_u32(size_of(n));
    if n < 0 { -size } else { size }
}

// Whether x is a number and no infinity. Of an infinity less itself nothing is left to compare.
pub fn is_finite(x: f32) -> bool
    ensures { result ≡ finite x }
{
    x - x == 0.0
}
