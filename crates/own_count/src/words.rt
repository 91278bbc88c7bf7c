// Marks and visits of a line, on the words of n tiles: their counts stand first, then their backdrops.
ghost use Rattle.std.specs.Prelude.{cond, [], ◌∷◌, ℕ, ◌+◌, ◌≤◌, ◌<◌, length, ℤ};
ghost use Rattle.acts.specs.Acts.{mark, visit, on, cross_acts, step_acts, delta_of};
ghost use Rattle.acts.specs.Rows.{rows_acts, RowsIn};
ghost use Rattle.panel.specs.Verdict.{verdict_told};
ghost use Rattle.own_count.specs.View.{Acted};

use acts::Rows;
use panel::limits::MOST_COUNT;
use panel::refusals::Refusal;

// The word of the largest backdrop; that of the least is 0.
const MOST_BACK: u32 = u32::MAX;

// A mark on tile t: 11 where it would leave i32.
pub fn own_mark(work: &mut [u32], n: usize, t: usize, up: bool) -> Result<(), Refusal>
    requires { (t < n) × (n + n ≤ length work.old) }
    ensures { Acted (delta_of up) (mark t ∷ []) n work.old work.new 0 (verdict_told result) }
{
    let at = n + t;
    let w = work[at];
    if up {
        if w == MOST_BACK {
            return Err(Refusal::SumOver);
        }
        work[at] = w + 1;
        return Ok(());
    }
    if w == 0 {
        return Err(Refusal::SumOver);
    }
    work[at] = w - 1;
    Ok(())
}

// A visit of tile t: 8 where its count is at the limit.
fn own_visit(work: &mut [u32], n: usize, t: usize) -> Result<(), Refusal>
    requires { (t < n) × (n + n ≤ length work.old) }
    ensures { (δ : ℤ) (i : ℕ) → Acted δ (visit t i ∷ []) n work.old work.new 1 (verdict_told result) }
{
    let w = work[t];
    if w >= MOST_COUNT {
        return Err(Refusal::CountOver);
    }
    work[t] = w + 1;
    Ok(())
}

// The mark of a step on tile t, where it marks the tile right of it.
fn own_cross(work: &mut [u32], n: usize, t: usize, marks: bool, up: bool) -> Result<(), Refusal>
    requires { (cond marks (t + 1) t < n) × (n + n ≤ length work.old) }
    ensures { Acted (delta_of up) (cross_acts marks t) n work.old work.new 0 (verdict_told result) }
{
    if marks {
        return own_mark(work, n, t + 1, up);
    }
    Ok(())
}

// A step on tile t.
pub fn own_hit(work: &mut [u32], n: usize, t: usize, marks: bool, up: bool) -> Result<(), Refusal>
    requires { (cond marks (t + 1) t < n) × (n + n ≤ length work.old) }
    ensures { (i : ℕ) → Acted (delta_of up) (step_acts (on t marks) i) n work.old work.new 1 (verdict_told result) }
{
    own_visit(work, n, t)?;
    own_cross(work, n, t, marks, up)
}

// Row marks, upward in y.
pub fn own_rows(work: &mut [u32], n: usize, rows: Rows, up: bool) -> Result<(), Refusal>
    requires { RowsIn rows n × (n + n ≤ length work.old) }
    ensures { Acted (delta_of up) (rows_acts rows) n work.old work.new 0 (verdict_told result) }
{
    for y in rows.low..rows.high {
        let t = (rows.first + (y - rows.top) * rows.width) as usize;
        own_mark(work, n, t, up)?;
    }
    Ok(())
}
