// A range of what is lent, set to one value or copied. What a range is for, its caller knows.
#![tactic(auto)]

ghost use Rattle.std.specs.Prelude.{◌≡◌, ◌+◌, ◌≤◌, length};
ghost use Rattle.ranges.specs.Ranges.{cleared_of, copied_of};

// The n from a on are `zero`.
pub fn clear<T: Copy + Drop>(xs: &mut [T], a: usize, n: usize, zero: T)
    requires { a + n ≤ length xs.old }
    ensures { xs.new ≡ cleared_of zero a n xs.old }
{
    for i in 0..n {
        xs[a + i] = zero;
    }
}

// The n from a on, from b on in another slice.
pub fn copy<T: Copy + Drop>(from: &[T], a: usize, to: &mut [T], b: usize, n: usize)
    requires { (a + n ≤ length «from».now) × (b + n ≤ length to.old) }
    ensures { (d : T) → to.new ≡ copied_of d «from».now a b n to.old }
{
    // a loop: copy_from_slice compiles to memmove, which the archive may not need
    for i in 0..n {
        to[b + i] = from[a + i];
    }
}
