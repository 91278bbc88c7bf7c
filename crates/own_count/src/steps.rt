// The steps of a line's clipped walk, and the walk as a whole.
ghost use Rattle.std.specs.Prelude.{ℕ, ◌+◌, ◌-◌, ◌≤◌, ◌<◌, length};
ghost use Rattle.panel.specs.Limits.{most_slots};
ghost use Rattle.panel.specs.Widths.{step_range};
ghost use Rattle.acts.specs.Acts.{step_acts, steps_acts, delta_of};
ghost use Rattle.acts.specs.Line.{plan_acts, plan_step};
ghost use Rattle.hits.specs.Steps.{hit_at};
ghost use Rattle.hits.specs.Notes.{OnTiles};
ghost use Rattle.walked_lines.specs.Line.{plan_by, plan_of, Walkable, Clipped};
ghost use Rattle.walked_lines.specs.Tallied.{tallied_told};
ghost use Rattle.panel.specs.Verdict.{verdict_told};
ghost use Rattle.own_count.specs.View.{view_of, KeptFrom, Acted, StepAs};

use super::words::{own_hit, own_rows};
use clip::{Clip, clip_to};
use panel::kinds::Path;
use panel::limits::{MOST_SLOTS, MOST_STEPS};
use panel::refusals::Refusal;
use walk::kinds::{Pace, Walk};
use walk::step::{crosses, step_at, z_at};
use walked_lines::rows_by;

// One step.
fn own_step(
    work: &mut [u32],
    n: usize,
    pace: Pace,
    path: Path,
    up: bool,
    i: u32,
) -> Result<(), Refusal>
    requires { OnTiles path n n × (n + n ≤ length work.old) × (i < step_range) }
    ensures { Acted (delta_of up) (step_acts (hit_at pace path i) i) n work.old work.new 1 (verdict_told result) }
{
    let Some((tile, x, _, z)) = step_at(pace, path, i) else {
        return Err(Refusal::Outside);
    };
    let last_z = z_at(pace.a, pace.b, i as f32 - 1.0);
    let marks = crosses(pace.on_top, path.x1, i, last_z, x, z);
    own_hit(work, n, tile.0 as usize, marks, up)
}

// The steps from .. to, in order.
fn own_steps(
    work: &mut [u32],
    n: usize,
    pace: Pace,
    path: Path,
    up: bool,
    from: u32,
    to: u32,
) -> Result<(), Refusal>
    requires { OnTiles path n n × (n + n ≤ length work.old) × («from» ≤ to) × («from» < to → to ≤ step_range) }
    ensures { Acted (delta_of up) (steps_acts (hit_at pace path) (to - «from») «from») n work.old work.new (to - «from») (verdict_told result) }
{
    for i in from..to {
        own_step(work, n, pace, path, up, i)?;
    }
    Ok(())
}

// Row marks, then steps.
fn own_acts(
    work: &mut [u32],
    n: usize,
    up: bool,
    pace: Pace,
    path: Path,
    clip: Clip,
) -> Result<(), Refusal>
    requires { OnTiles path n n × (n + n ≤ length work.old) × Clipped path clip }
    ensures { Acted (delta_of up) (plan_acts (plan_by up pace path clip)) n work.old work.new (clip.imax - clip.imin) (verdict_told result) }
{
    own_rows(work, n, rows_by(path, clip), up)?;
    own_steps(work, n, pace, path, up, clip.imin, clip.imax)
}

// A walk, after made references: 8 for its largest step number, 9 for the room, then its acts.
pub fn own_walk(
    work: &mut [u32],
    n: usize,
    made: u32,
    walk: Walk,
    path: Path,
) -> Result<u32, Refusal>
    requires { OnTiles path n n × (n + n ≤ length work.old) × Walkable walk path }
    ensures { ((l : ℕ) → StepAs n work.new made (plan_step most_slots l (plan_of walk path) (view_of n work.old made)) (tallied_told result))
        × KeptFrom (n + n) work.old work.new }
{
    let up = !walk.e.is_down;
    let pace = walk.pace;
    let clip = clip_to(walk, path);
    let imin = clip.imin;
    let imax = clip.imax;
    if (imin < imax) & (imax > MOST_STEPS) {
        return Err(Refusal::CountOver);
    }
    let k = imax - imin;
    if (made as u64) + (k as u64) > MOST_SLOTS as u64 {
        return Err(Refusal::NoRoom);
    }
    own_acts(work, n, up, pace, path, clip)?;
    Ok(k)
}
