// The check of a line's steps, path_count.rs lines 131 to 152 with nothing written: 10, 8, 11. The
// first steps are noted, so that the write needn't find them again.
ghost use Rattle.std.specs.Prelude.{◌≡◌, ◌-◌, ◌<◌, ◌≤◌, length};
ghost use Rattle.exact.specs.Reach.{Starts};
ghost use Rattle.panel.specs.Widths.{step_range};
ghost use Rattle.panel.specs.Verdict.{verdict_told, Fine};
ghost use Rattle.walk.specs.Step.{last_z_word};
ghost use Rattle.box_edges.specs.Edges.{edges_of};
ghost use Rattle.acts.specs.Acts.{check_no, step_acts, steps_acts, delta_of};
ghost use Rattle.hits.specs.Steps.{hit_at};
ghost use Rattle.hits.specs.Notes.{Notes, note_words, OnTiles};
ghost use Rattle.walk_steps.specs.Checks.{z_of, seen_of, word_by, noted_of};
ghost use Rattle.walk_steps.specs.Seen.{seen_told};
ghost use Rattle.walk_steps.specs.Noted.{noted_told};

use acts::{leaves, next_if};
use box_edges::{Edges, edges_of, step_by};
use panel::kinds::Path;
use panel::limits::MOST_COUNT;
use panel::refusals::Refusal;
use strides::word_of;
use walk::kinds::Pace;
use walk::step::{crosses, step_at, z_at};

// One step, given z of the step before. One that passes hands its own z on.
fn check_step(
    pace: Pace,
    path: Path,
    up: bool,
    i: u32,
    last_z: f32,
    backs: &[i32],
    counts: &[u32],
) -> Result<f32, Refusal>
    requires { OnTiles path (length backs.now) (length counts.now) × (i < step_range) × (last_z ≡ last_z_word pace i) }
    ensures { seen_told result ≡ seen_of (check_no (delta_of up) (step_acts (hit_at pace path i) i) backs.now counts.now) (z_of pace i) }
{
    let Some((tile, x, _, z)) = step_at(pace, path, i) else {
        return Err(Refusal::Outside);
    };
    let own = tile.0 as usize;
    if counts[own] >= MOST_COUNT {
        return Err(Refusal::CountOver);
    }
    // One test, since which steps mark can't be foretold.
    let marks = crosses(pace.on_top, path.x1, i, last_z, x, z);
    let q = next_if(own, marks);
    if marks & leaves(backs[q], up) {
        return Err(Refusal::SumOver);
    }
    Ok(z)
}

// The steps from .. to, in order.
pub fn check_steps(
    pace: Pace,
    path: Path,
    up: bool,
    from: u32,
    to: u32,
    backs: &[i32],
    counts: &[u32],
) -> Result<(), Refusal>
    requires { OnTiles path (length backs.now) (length counts.now) × («from» < to → to ≤ step_range) }
    ensures { verdict_told result ≡ check_no (delta_of up) (steps_acts (hit_at pace path) (to - «from») «from») backs.now counts.now }
{
    if to <= from {
        return Ok(());
    }
    let mut last_z = z_at(pace.a, pace.b, from as f32 - 1.0);
    for i in from..to {
        last_z = check_step(pace, path, up, i, last_z, backs, counts)?;
    }
    Ok(())
}

// One step of a checked line, with the word to note of it beside its z.
fn note_step(
    pace: Pace,
    path: Path,
    edges: Edges,
    up: bool,
    i: u32,
    last_z: f32,
    backs: &[i32],
    counts: &[u32],
) -> Result<(f32, u32), Refusal>
    requires { OnTiles path (length backs.now) (length counts.now) × (i < step_range) × (last_z ≡ last_z_word pace i)
        × Starts pace.sign pace.x0 pace.y0 × (edges ≡ edges_of path) }
    ensures { noted_told result ≡ noted_of (check_no (delta_of up) (step_acts (hit_at pace path i) i) backs.now counts.now) (z_of pace i) (word_by (hit_at pace path i)) }
{
    let Some((tile, x, _, z)) = step_by(pace, path, edges, i) else {
        return Err(Refusal::Outside);
    };
    let t = tile.0 as usize;
    if counts[t] >= MOST_COUNT {
        return Err(Refusal::CountOver);
    }
    let marks = crosses(pace.on_top, path.x1, i, last_z, x, z);
    let q = next_if(t, marks);
    let word = word_of(tile.0, marks);
    // Which steps mark can't be foretold, so nothing branches on it. A backdrop at the end of i32 is rare.
    if leaves(backs[q], up) {
        let z = check_step(pace, path, up, i, last_z, backs, counts)?;
        return Ok((z, word));
    }
    Ok((z, word))
}

// The steps from .. to, in order, each with its note.
pub fn note_each(
    pace: Pace,
    path: Path,
    up: bool,
    from: u32,
    to: u32,
    backs: &[i32],
    counts: &[u32],
    notes: &mut [u32],
) -> Result<(), Refusal>
    requires { OnTiles path (length backs.now) (length counts.now) × («from» < to → to ≤ step_range)
        × Starts pace.sign pace.x0 pace.y0 × (to - «from» ≤ length notes.old) × (length notes.old ≡ note_words) }
    ensures { (verdict_told result ≡ check_no (delta_of up) (steps_acts (hit_at pace path) (to - «from») «from») backs.now counts.now)
        × (verdict_told result ≡ Fine → Notes (hit_at pace path) «from» (to - «from») notes.new (length backs.now)) }
{
    if to <= from {
        return Ok(());
    }
    let edges = edges_of(path);
    let mut last_z = z_at(pace.a, pace.b, from as f32 - 1.0);
    for i in from..to {
        let (z, word) = note_step(pace, path, edges, up, i, last_z, backs, counts)?;
        last_z = z;
        notes[(i - from) as usize] = word;
    }
    Ok(())
}
