// The first steps of a walk, noted: all at once in whole numbers where they are ordinary, else one by one.
ghost use Rattle.std.specs.Prelude.{◌≡◌, ◌-◌, ◌<◌, ◌≤◌, length};
ghost use Rattle.exact.specs.Reach.{Starts};
ghost use Rattle.panel.specs.Widths.{step_range};
ghost use Rattle.panel.specs.Verdict.{verdict_told, Fine};
ghost use Rattle.acts.specs.Acts.{check_no, steps_acts, delta_of};
ghost use Rattle.hits.specs.Steps.{hit_at};
ghost use Rattle.hits.specs.Notes.{Notes, note_words, OnTiles};

use super::checks::note_each;
use panel::kinds::Path;
use panel::refusals::Refusal;
use quick_notes::quick_steps;
use walk::kinds::Pace;

// The steps from .. to, in order, each with its note.
pub fn note_steps(
    pace: Pace,
    path: Path,
    up: bool,
    from: u32,
    to: u32,
    backs: &[i32],
    counts: &[u32],
    notes: &mut [u32],
) -> Result<(), Refusal>
    requires { OnTiles path (length backs.now) (length counts.now) × («from» < to → to ≤ step_range)
        × Starts pace.sign pace.x0 pace.y0 × (to - «from» ≤ length notes.old) × (length notes.old ≡ note_words) }
    ensures { (verdict_told result ≡ check_no (delta_of up) (steps_acts (hit_at pace path) (to - «from») «from») backs.now counts.now)
        × (verdict_told result ≡ Fine → Notes (hit_at pace path) «from» (to - «from») notes.new (length backs.now)) }
{
    if quick_steps(pace, path, up, from, to, backs, counts, notes) {
        return Ok(());
    }
    note_each(pace, path, up, from, to, backs, counts, notes)
}
