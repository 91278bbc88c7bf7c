// The first backdrop that isn't ours. Ours stand as words, with half of all words added.
ghost use Rattle.std.specs.Prelude.{◌≡◌, ◌+◌, ◌≤◌, length};
ghost use Rattle.own_count.specs.View.{back_of, view_of};
ghost use Rattle.tile_check.specs.Faults.{same_back, first_back_fault};

use own_count::ZERO_BACK;

// Whether a backdrop is that of a word.
fn same_back(b: i32, w: u32) -> bool
    ensures { result ≡ same_back b (back_of w) }
{
    if b < 0 {
        if w >= ZERO_BACK {
            return false;
        }
        return (-1 - b) as u32 == ZERO_BACK - 1 - w;
    }
    if w < ZERO_BACK {
        return false;
    }
    b as u32 == w - ZERO_BACK
}

// The first that isn't; the number of tiles where all are.
pub fn first_back(backs: &[i32], work: &[u32]) -> usize
    requires { length backs.now + length backs.now ≤ length work.now }
    ensures { result ≡ first_back_fault backs.now (view_of (length backs.now) work.now 0).backs }
{
    let n = backs.len();
    for t in 0..n {
        if !same_back(backs[t], work[n + t]) {
            return t;
        }
    }
    n
}
