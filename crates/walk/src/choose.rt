// Casts to a number from 0 up, with no branches that meet.
ghost use Rattle.std.specs.Prelude.{◌≡◌};
ghost use Rattle.walk.specs.Num.{cut_of, neg_of, inside_of, row_of};

pub fn negative(v: i32) -> bool
    ensures { result ≡ neg_of v }
{
    v < 0
}

// v, or 0 where it is negative.
pub fn cut(v: i32) -> u32
    ensures { result ≡ cut_of v }
{
    v.max(0) as u32
}

// lo <= v < hi.
pub fn inside(v: i32, lo: u32, hi: u32) -> bool
    ensures { result ≡ inside_of v lo hi }
{
    let n = cut(v);
    !negative(v) & ((lo <= n) & (n < hi))
}

// `as i32`, or 0 where that is negative.
pub fn row(v: f32) -> u32
    ensures { result ≡ row_of v }
{
    cut(float32::to_i32(v))
}
