// The writes of a line's steps that are known to go through, path_count.rs lines 131 to 152: of those
// that the check noted, and of those past them, which are found again.
ghost use Rattle.std.specs.Prelude.{◌≡◌, true, ℕ, ◌+◌, ◌-◌, ◌*◌, ◌<◌, ◌≤◌, length, get_or};
ghost use Rattle.lists.specs.Run.{done};
ghost use Rattle.panel.specs.Limits.{most_slots};
ghost use Rattle.panel.specs.Widths.{ref_words, step_range};
ghost use Rattle.walk.specs.Step.{last_z_word};
ghost use Rattle.strides.specs.Words.{word_next};
ghost use Rattle.acts.specs.Acts.{st_of, run_acts, step_acts, steps_acts, is_done, delta_of};
ghost use Rattle.hits.specs.Steps.{hit_at};
ghost use Rattle.hits.specs.Notes.{hit_by, hits_by, note_words, OnTiles};
ghost use Rattle.walk_steps.specs.Checks.{z_of};

use acts::{mark_if, visit};
use panel::kinds::{LineNo, Path, TileNo};
use strides::{word_marks, word_tile};
use walk::kinds::Pace;
use walk::step::{crosses, step_at, z_at};

// One step as reference number at, given z of the step before; its z is handed back.
fn write_step(
    pace: Pace,
    path: Path,
    up: bool,
    line: LineNo,
    i: u32,
    last_z: f32,
    at: u32,
    backs: &mut [i32],
    counts: &mut [u32],
    refs: &mut [u32],
) -> f32
    requires { OnTiles path (length backs.old) (length counts.old) × (i < step_range) × (last_z ≡ last_z_word pace i)
        × (ref_words * at + ref_words ≤ length refs.old) × (at < most_slots)
        × (is_done (run_acts (delta_of up) line.0 (step_acts (hit_at pace path i) i) (st_of backs.old counts.old refs.old at)) ≡ true) }
    ensures { (done (st_of backs.new counts.new refs.new (at + 1))
        ≡ run_acts (delta_of up) line.0 (step_acts (hit_at pace path i) i) (st_of backs.old counts.old refs.old at))
        × (result ≡ z_of pace i) }
{
    let Some((tile, x, _, z)) = step_at(pace, path, i) else {
        return last_z;
    };
    visit(tile, line, i, at, counts, refs);
    let marks = crosses(pace.on_top, path.x1, i, last_z, x, z);
    mark_if(backs, tile.0 as usize, marks, up);
    z
}

// The steps from .. to, as references made, made + 1, ..
pub fn write_steps(
    pace: Pace,
    path: Path,
    up: bool,
    line: LineNo,
    from: u32,
    to: u32,
    made: u32,
    backs: &mut [i32],
    counts: &mut [u32],
    refs: &mut [u32],
)
    requires { OnTiles path (length backs.old) (length counts.old) × («from» ≤ to) × («from» < to → to ≤ step_range)
        × (ref_words * (made + (to - «from»)) ≤ length refs.old) × (made + (to - «from») ≤ most_slots)
        × (is_done (run_acts (delta_of up) line.0 (steps_acts (hit_at pace path) (to - «from») «from») (st_of backs.old counts.old refs.old made)) ≡ true) }
    ensures { done (st_of backs.new counts.new refs.new (made + (to - «from»)))
        ≡ run_acts (delta_of up) line.0 (steps_acts (hit_at pace path) (to - «from») «from») (st_of backs.old counts.old refs.old made) }
{
    if to <= from {
        return;
    }
    let mut last_z = z_at(pace.a, pace.b, from as f32 - 1.0);
    for i in from..to {
        let at = made + (i - from);
        last_z = write_step(pace, path, up, line, i, last_z, at, backs, counts, refs);
    }
}

// The step of a word, as reference number at.
fn write_noted(
    word: u32,
    up: bool,
    line: LineNo,
    i: u32,
    at: u32,
    backs: &mut [i32],
    counts: &mut [u32],
    refs: &mut [u32],
)
    requires { (word_next word < length backs.old) × (length backs.old ≡ length counts.old) × (i < step_range)
        × (ref_words * at + ref_words ≤ length refs.old) × (at < most_slots)
        × (is_done (run_acts (delta_of up) line.0 (step_acts (hit_by word) i) (st_of backs.old counts.old refs.old at)) ≡ true) }
    ensures { done (st_of backs.new counts.new refs.new (at + 1))
        ≡ run_acts (delta_of up) line.0 (step_acts (hit_by word) i) (st_of backs.old counts.old refs.old at) }
{
    let t = word_tile(word);
    let marks = word_marks(word);
    visit(TileNo(t), line, i, at, counts, refs);
    mark_if(backs, t as usize, marks, up);
}

// The steps from .. to by their words, as references made, made + 1, ..
pub fn write_notes(
    notes: &[u32],
    up: bool,
    line: LineNo,
    from: u32,
    to: u32,
    made: u32,
    backs: &mut [i32],
    counts: &mut [u32],
    refs: &mut [u32],
)
    requires { ((j : ℕ) → j < to - «from» → word_next (get_or notes.now j 0) < length backs.old)
        × (length backs.old ≡ length counts.old) × («from» ≤ to) × («from» < to → to ≤ step_range) × (to - «from» ≤ length notes.now) × (length notes.now ≡ note_words)
        × (ref_words * (made + (to - «from»)) ≤ length refs.old) × (made + (to - «from») ≤ most_slots)
        × (is_done (run_acts (delta_of up) line.0 (steps_acts (hits_by notes.now «from») (to - «from») «from») (st_of backs.old counts.old refs.old made)) ≡ true) }
    ensures { done (st_of backs.new counts.new refs.new (made + (to - «from»)))
        ≡ run_acts (delta_of up) line.0 (steps_acts (hits_by notes.now «from») (to - «from») «from») (st_of backs.old counts.old refs.old made) }
{
    for i in from..to {
        let k = i - from;
        let word = notes[k as usize];
        write_noted(word, up, line, i, made + k, backs, counts, refs);
    }
}
