// The float helpers for a caller in C or Rust: each is float32's of the same name, with its promise.
ghost use Rattle.std.specs.Prelude.{◌≡◌, pos};
ghost use Rattle.std.specs.Float.Ieee as Ieee;
ghost use Rattle.std.specs.Float.{binary32};
ghost use Rattle.std.specs.Float.Ieee.Scale.{finite};
ghost use Rattle.float32.specs.Meaning.{trunc_of, floor_of, ceil_of, round_of, abs_of, signum_of, copysign_of, min_of, max_of, clamp_of};

#[unsafe(no_mangle)]
pub extern "C" fn gp_floor(x: f32) -> f32
    ensures { result ≡ floor_of x }
{
    groatpocket::floats::gp_floor(x)
}

#[unsafe(no_mangle)]
pub extern "C" fn gp_ceil(x: f32) -> f32
    ensures { result ≡ ceil_of x }
{
    groatpocket::floats::gp_ceil(x)
}

#[unsafe(no_mangle)]
pub extern "C" fn gp_round(x: f32) -> f32
    ensures { result ≡ round_of x }
{
    groatpocket::floats::gp_round(x)
}

#[unsafe(no_mangle)]
pub extern "C" fn gp_trunc(x: f32) -> f32
    ensures { result ≡ trunc_of x }
{
    groatpocket::floats::gp_trunc(x)
}

#[unsafe(no_mangle)]
pub extern "C" fn gp_abs(x: f32) -> f32
    ensures { result ≡ abs_of x }
{
    groatpocket::floats::gp_abs(x)
}

#[unsafe(no_mangle)]
pub extern "C" fn gp_signum(x: f32) -> f32
    ensures { result ≡ signum_of x }
{
    groatpocket::floats::gp_signum(x)
}

#[unsafe(no_mangle)]
pub extern "C" fn gp_min(a: f32, b: f32) -> f32
    ensures { result ≡ min_of a b }
{
    groatpocket::floats::gp_min(a, b)
}

#[unsafe(no_mangle)]
pub extern "C" fn gp_max(a: f32, b: f32) -> f32
    ensures { result ≡ max_of a b }
{
    groatpocket::floats::gp_max(a, b)
}

#[unsafe(no_mangle)]
pub extern "C" fn gp_copysign(magnitude: f32, sign: f32) -> f32
    ensures { result ≡ copysign_of magnitude sign }
{
    groatpocket::floats::gp_copysign(magnitude, sign)
}

#[unsafe(no_mangle)]
pub extern "C" fn gp_clamp(x: f32, lo: f32, hi: f32) -> f32
    ensures { result ≡ clamp_of x lo hi }
{
    groatpocket::floats::gp_clamp(x, lo, hi)
}

#[unsafe(no_mangle)]
pub extern "C" fn gp_to_u32(x: f32) -> u32
    ensures { result ≡ Ieee.to_unsigned 32 x }
{
    groatpocket::floats::gp_to_u32(x)
}

#[unsafe(no_mangle)]
pub extern "C" fn gp_to_i32(x: f32) -> i32
    ensures { result ≡ Ieee.to_signed 31 x }
{
    groatpocket::floats::gp_to_i32(x)
}

#[unsafe(no_mangle)]
pub extern "C" fn gp_of_u32(n: u32) -> f32
    ensures { result ≡ Ieee.of_int binary32 (pos n) }
{
    groatpocket::floats::gp_of_u32(n)
}

#[unsafe(no_mangle)]
pub extern "C" fn gp_of_i32(n: i32) -> f32
    ensures { result ≡ Ieee.of_int binary32 n }
{
    groatpocket::floats::gp_of_i32(n)
}

#[unsafe(no_mangle)]
pub extern "C" fn gp_is_finite(x: f32) -> bool
    ensures { result ≡ finite x }
{
    groatpocket::floats::gp_is_finite(x)
}
