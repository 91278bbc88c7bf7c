// The check of a line's first steps in whole numbers, with their notes. It refuses nothing itself: where a step is
// outside, or its tile or its mark at a limit, or its z out of the ordinary, it says no. A line inside its box is then
// walked (`one_line`); the steps of a walk are gone through one by one (`walk_steps`), which says what becomes of
// them. Nothing is written but notes.
#![tactic(auto)]

ghost use Rattle.std.specs.Prelude.{◌≡◌, true, ◌-◌, ◌<◌, ◌≤◌, length};
ghost use Rattle.exact.specs.Reach.{Starts};
ghost use Rattle.panel.specs.Paths.{end_of};
ghost use Rattle.panel.specs.Widths.{step_range};
ghost use Rattle.panel.specs.Verdict.{Fine};
ghost use Rattle.strides.specs.Strides.{strides_of, Before};
ghost use Rattle.walk.specs.Step.{Boxed};
ghost use Rattle.acts.specs.Acts.{check_no, step_acts, steps_acts, delta_of};
ghost use Rattle.hits.specs.Steps.{hit_at};
ghost use Rattle.hits.specs.Notes.{Told, Notes, note_words, OnTiles};

use acts::{leaves, next_if};
use panel::kinds::Path;
use panel::limits::MOST_COUNT;
use strides::{Strides, laid_at, last_of, strides_of, word_marks, word_tile};
use walk::kinds::Pace;

// Each step's word laid down, whether it is good or not: no branch and no early end, so the compiler does it four steps at a
// time. Whether all were good.
fn lay_steps(
    pace: Pace,
    path: Path,
    g: Strides,
    from: u32,
    to: u32,
    first: u32,
    notes: &mut [u32],
) -> bool
    requires { Boxed path × (path.x0 < path.x1) × Starts pace.sign pace.x0 pace.y0 × (g ≡ strides_of pace path) × Before pace «from» first
        × («from» ≤ to) × (to ≤ step_range) × (to - «from» ≤ length notes.old) × (length notes.old ≡ note_words) }
    ensures { result ≡ true → Notes (hit_at pace path) «from» (to - «from») notes.new (end_of path) }
{
    let mut last = first;
    let mut good = true;
    for i in from..to {
        let laid = laid_at(pace, path, g, i, last);
        last = laid.z;
        good = good & laid.good;
        notes[(i - from) as usize] = laid.word;
    }
    good
}

// One step by its word. Which steps mark can't be foretold, so nothing branches on it.
fn pass_step(
    pace: Pace,
    path: Path,
    up: bool,
    i: u32,
    word: u32,
    backs: &[i32],
    counts: &[u32],
) -> bool
    requires { OnTiles path (length backs.now) (length counts.now) × Told (hit_at pace path i) word (length backs.now) }
    ensures { result ≡ true → check_no (delta_of up) (step_acts (hit_at pace path i) i) backs.now counts.now ≡ Fine }
{
    let own = word_tile(word) as usize;
    if counts[own] >= MOST_COUNT {
        return false;
    }
    let q = next_if(own, word_marks(word));
    !leaves(backs[q], up)
}

// Whether the steps from .. to, whose words these are, pass by their tiles' counts and backdrops.
fn pass_steps(
    pace: Pace,
    path: Path,
    up: bool,
    from: u32,
    to: u32,
    backs: &[i32],
    counts: &[u32],
    notes: &[u32],
) -> bool
    requires { OnTiles path (length backs.now) (length counts.now) × («from» ≤ to) × (to - «from» ≤ length notes.now) × (length notes.now ≡ note_words)
        × (to ≤ step_range) × Notes (hit_at pace path) «from» (to - «from») notes.now (length backs.now) }
    ensures { result ≡ true → Fine ≡ check_no (delta_of up) (steps_acts (hit_at pace path) (to - «from») «from») backs.now counts.now }
{
    for i in from..to {
        let word = notes[(i - from) as usize];
        if !pass_step(pace, path, up, i, word, backs, counts) {
            return false;
        }
    }
    true
}

// Whether all steps from .. to pass so; then each has its note.
pub fn quick_steps(
    pace: Pace,
    path: Path,
    up: bool,
    from: u32,
    to: u32,
    backs: &[i32],
    counts: &[u32],
    notes: &mut [u32],
) -> bool
    requires { OnTiles path (length backs.now) (length counts.now) × («from» < to → to ≤ step_range)
        × Starts pace.sign pace.x0 pace.y0 × (to - «from» ≤ length notes.old) × (length notes.old ≡ note_words) }
    ensures { result ≡ true → (Fine ≡ check_no (delta_of up) (steps_acts (hit_at pace path) (to - «from») «from») backs.now counts.now)
        × Notes (hit_at pace path) «from» (to - «from») notes.new (length backs.now) }
{
    if (to <= from) | (path.x1 <= path.x0) {
        return false;
    }
    let g = strides_of(pace, path);
    let Some(first) = last_of(pace, from) else {
        return false;
    };
    if !lay_steps(pace, path, g, from, to, first, notes) {
        return false;
    }
    pass_steps(pace, path, up, from, to, backs, counts, notes)
}
