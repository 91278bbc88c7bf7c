// Backdrops. A mark adds +1 for an upward line and -1 for a downward one.
ghost use Rattle.std.specs.Prelude.{◌≡◌, true, not, cond, ◌+◌, ◌<◌, ◌^◌, length, get_or, set, pos, ◌+ℤ◌};
ghost use Rattle.panel.specs.Signed.{in_i32};
ghost use Rattle.acts.specs.Acts.{delta_of};

// Whether a mark would take backdrop b out of i32.
pub fn leaves(b: i32, up: bool) -> bool
    ensures { result ≡ not (in_i32 (b +ℤ delta_of up)) }
{
    if up { b == i32::MAX } else { b == i32::MIN }
}

// One mark, which is known to stay within i32.
pub fn mark(backs: &mut [i32], t: usize, up: bool)
    requires { (t < length backs.old) × (in_i32 (get_or backs.old t (pos 0) +ℤ delta_of up) ≡ true) }
    ensures { backs.new ≡ set backs.old t (get_or backs.old t (pos 0) +ℤ delta_of up) }
{
    let b = backs[t];
    if up {
        let v = b + 1;
        backs[t] = v;
    } else {
        let v = b - 1;
        backs[t] = v;
    }
}

// The tile right of t where a step marks it, else t itself.
pub fn next_if(t: usize, marks: bool) -> usize
    requires { t + 1 < 2 ^ 64 }
    ensures { result ≡ cond marks (t + 1) t }
{
    if marks { t + 1 } else { t }
}

// What a step's mark adds, 0 where it marks nothing.
fn delta_if(marks: bool, up: bool) -> i32
    ensures { result ≡ cond marks (delta_of up) (pos 0) }
{
    if marks { if up { 1 } else { -1 } } else { 0 }
}

// The mark of a step on tile t. It stores in any case: which steps mark can't be foretold.
pub fn mark_if(backs: &mut [i32], t: usize, marks: bool, up: bool)
    requires { (cond marks (t + 1) t < length backs.old) × (marks ≡ true → in_i32 (get_or backs.old (t + 1) (pos 0) +ℤ delta_of up) ≡ true) }
    ensures { backs.new ≡ cond marks (set backs.old (t + 1) (get_or backs.old (t + 1) (pos 0) +ℤ delta_of up)) backs.old }
{
    let q = next_if(t, marks);
    let b = backs[q];
    let d = delta_if(marks, up);
    let v = b + d;
    backs[q] = v;
}
