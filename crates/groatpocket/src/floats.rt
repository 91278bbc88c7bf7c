// The float helpers for a caller in C or Rust: each is float32's of the same name, with its promise.
ghost use Rattle.std.specs.Prelude.{◌≡◌, pos};
ghost use Rattle.std.specs.Float.Ieee as Ieee;
ghost use Rattle.std.specs.Float.{binary32};
ghost use Rattle.std.specs.Float.Ieee.Scale.{finite};
ghost use Rattle.float32.specs.Meaning.{trunc_of, floor_of, ceil_of, round_of, abs_of, signum_of, copysign_of, min_of, max_of, clamp_of};

pub fn gp_floor(x: f32) -> f32
    ensures { result ≡ floor_of x }
{
    float32::floor(x)
}

pub fn gp_ceil(x: f32) -> f32
    ensures { result ≡ ceil_of x }
{
    float32::ceil(x)
}

pub fn gp_round(x: f32) -> f32
    ensures { result ≡ round_of x }
{
    float32::round(x)
}

pub fn gp_trunc(x: f32) -> f32
    ensures { result ≡ trunc_of x }
{
    float32::trunc(x)
}

pub fn gp_abs(x: f32) -> f32
    ensures { result ≡ abs_of x }
{
    float32::abs(x)
}

pub fn gp_signum(x: f32) -> f32
    ensures { result ≡ signum_of x }
{
    float32::signum(x)
}

pub fn gp_min(a: f32, b: f32) -> f32
    ensures { result ≡ min_of a b }
{
    float32::min(a, b)
}

pub fn gp_max(a: f32, b: f32) -> f32
    ensures { result ≡ max_of a b }
{
    float32::max(a, b)
}

pub fn gp_copysign(magnitude: f32, sign: f32) -> f32
    ensures { result ≡ copysign_of magnitude sign }
{
    float32::copysign(magnitude, sign)
}

pub fn gp_clamp(x: f32, lo: f32, hi: f32) -> f32
    ensures { result ≡ clamp_of x lo hi }
{
    float32::clamp(x, lo, hi)
}

pub fn gp_to_u32(x: f32) -> u32
    ensures { result ≡ Ieee.to_unsigned 32 x }
{
    float32::to_u32(x)
}

pub fn gp_to_i32(x: f32) -> i32
    ensures { result ≡ Ieee.to_signed 31 x }
{
    float32::to_i32(x)
}

pub fn gp_of_u32(n: u32) -> f32
    ensures { result ≡ Ieee.of_int binary32 (pos n) }
{
    float32::of_u32(n)
}

pub fn gp_of_i32(n: i32) -> f32
    ensures { result ≡ Ieee.of_int binary32 n }
{
    float32::of_i32(n)
}

pub fn gp_is_finite(x: f32) -> bool
    ensures { result ≡ finite x }
{
    float32::is_finite(x)
}
