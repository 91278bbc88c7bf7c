// The row marks and steps of a walk, checked and then written.
ghost use Rattle.std.specs.Prelude.{◌≡◌, true, ◌++◌, ◌+◌, ◌-◌, ◌*◌, ◌<◌, ◌≤◌, length};
ghost use Rattle.lists.specs.Run.{done};
ghost use Rattle.panel.specs.Limits.{most_slots};
ghost use Rattle.panel.specs.Widths.{ref_words, step_range};
ghost use Rattle.panel.specs.Verdict.{verdict_told, Fine};
ghost use Rattle.exact.specs.Reach.{Starts};
ghost use Rattle.acts.specs.Acts.{st_of, run_acts, check_no, steps_acts, is_done, delta_of};
ghost use Rattle.acts.specs.Rows.{rows_acts, RowsIn};
ghost use Rattle.hits.specs.Steps.{hit_at};
ghost use Rattle.hits.specs.Notes.{note_words, Notes, OnTiles};
ghost use Rattle.walk_steps.specs.Checks.{noted_to};

use super::checks::check_steps;
use super::notes::note_steps;
use super::writes::{write_notes, write_steps};
use acts::{Rows, check_rows, write_rows};
use hits::NOTE_WORDS;
use panel::kinds::{LineNo, Path};
use panel::refusals::Refusal;
use walk::kinds::Pace;

// The end of the steps that are noted: the first of a walk from imin to imax.
fn noted_to(imin: u32, imax: u32) -> u32
    requires { imin ≤ imax }
    ensures { result ≡ noted_to imin imax }
{
    if imax - imin <= NOTE_WORDS {
        imax
    } else {
        imin + NOTE_WORDS
    }
}

// The steps imin .. imax, of which the first are noted.
fn check_walk(
    pace: Pace,
    path: Path,
    up: bool,
    imin: u32,
    imax: u32,
    backs: &[i32],
    counts: &[u32],
    notes: &mut [u32],
) -> Result<(), Refusal>
    requires { OnTiles path (length backs.now) (length counts.now) × (imin ≤ imax) × (imin < imax → imax ≤ step_range)
        × Starts pace.sign pace.x0 pace.y0 × (length notes.old ≡ note_words) }
    ensures { (verdict_told result ≡ check_no (delta_of up) (steps_acts (hit_at pace path) (imax - imin) imin) backs.now counts.now)
        × (verdict_told result ≡ Fine → Notes (hit_at pace path) imin (noted_to imin imax - imin) notes.new (length backs.now)) }
{
    let mid = noted_to(imin, imax);
    note_steps(pace, path, up, imin, mid, backs, counts, notes)?;
    check_steps(pace, path, up, mid, imax, backs, counts)
}

// The steps imin .. imax, of which the first are noted, as references made, made + 1, ..
fn write_walk(
    pace: Pace,
    path: Path,
    up: bool,
    line: LineNo,
    imin: u32,
    imax: u32,
    made: u32,
    notes: &[u32],
    backs: &mut [i32],
    counts: &mut [u32],
    refs: &mut [u32],
)
    requires { OnTiles path (length backs.old) (length counts.old) × (imin ≤ imax) × (imin < imax → imax ≤ step_range)
        × (ref_words * (made + (imax - imin)) ≤ length refs.old) × (made + (imax - imin) ≤ most_slots)
        × (is_done (run_acts (delta_of up) line.0 (steps_acts (hit_at pace path) (imax - imin) imin) (st_of backs.old counts.old refs.old made)) ≡ true)
        × (length notes.now ≡ note_words) × Notes (hit_at pace path) imin (noted_to imin imax - imin) notes.now (length backs.old) }
    ensures { done (st_of backs.new counts.new refs.new (made + (imax - imin)))
        ≡ run_acts (delta_of up) line.0 (steps_acts (hit_at pace path) (imax - imin) imin) (st_of backs.old counts.old refs.old made) }
{
    let mid = noted_to(imin, imax);
    write_notes(notes, up, line, imin, mid, made, backs, counts, refs);
    let at = made + (mid - imin);
    write_steps(pace, path, up, line, mid, imax, at, backs, counts, refs);
}

// Row marks, then the steps imin .. imax: nothing lent by the caller is written.
pub fn check_line(
    rows: Rows,
    up: bool,
    pace: Pace,
    path: Path,
    imin: u32,
    imax: u32,
    backs: &[i32],
    counts: &[u32],
    notes: &mut [u32],
) -> Result<(), Refusal>
    requires { OnTiles path (length backs.now) (length counts.now) × RowsIn rows (length backs.now) × (imin ≤ imax) × (imin < imax → imax ≤ step_range)
        × Starts pace.sign pace.x0 pace.y0 × (length notes.old ≡ note_words) }
    ensures { (verdict_told result ≡ check_no (delta_of up) (rows_acts rows ++ steps_acts (hit_at pace path) (imax - imin) imin) backs.now counts.now)
        × (verdict_told result ≡ Fine → Notes (hit_at pace path) imin (noted_to imin imax - imin) notes.new (length backs.now)) }
{
    check_rows(rows, up, backs, counts)?;
    check_walk(pace, path, up, imin, imax, backs, counts, notes)
}

// Row marks, then the steps imin .. imax, as references made, made + 1, ..
pub fn write_line(
    rows: Rows,
    up: bool,
    pace: Pace,
    path: Path,
    imin: u32,
    imax: u32,
    line: LineNo,
    made: u32,
    notes: &[u32],
    backs: &mut [i32],
    counts: &mut [u32],
    refs: &mut [u32],
)
    requires { OnTiles path (length backs.old) (length counts.old) × RowsIn rows (length backs.old) × (imin ≤ imax) × (imin < imax → imax ≤ step_range)
        × (length notes.now ≡ note_words) × Notes (hit_at pace path) imin (noted_to imin imax - imin) notes.now (length backs.old)
        × (ref_words * (made + (imax - imin)) ≤ length refs.old) × (made + (imax - imin) ≤ most_slots)
        × (is_done (run_acts (delta_of up) line.0 (rows_acts rows ++ steps_acts (hit_at pace path) (imax - imin) imin) (st_of backs.old counts.old refs.old made)) ≡ true) }
    ensures { done (st_of backs.new counts.new refs.new (made + (imax - imin)))
        ≡ run_acts (delta_of up) line.0 (rows_acts rows ++ steps_acts (hit_at pace path) (imax - imin) imin) (st_of backs.old counts.old refs.old made) }
{
    write_rows(rows, up, backs);
    write_walk(
        pace, path, up, line, imin, imax, made, notes, backs, counts, refs,
    );
}
