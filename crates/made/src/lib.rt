// Whether our lines make a reference: a step of a line's clipped walk, with its tile. docs/RULES.md,
// "The walk of a line". A step in the box and below the walk's count need not be in the clipped walk.
#![tactic(auto)]

ghost use Rattle.std.specs.Prelude.{◌≡◌, ℕ, ◌*◌, ◌<◌, ◌≤◌, length};
ghost use Rattle.panel.specs.Widths.{line_floats, step_range};
ghost use Rattle.panel.specs.Paths.{paths_answer};
ghost use Rattle.panel.specs.Answer.{Done};
ghost use Rattle.exact.specs.Reach.{Starts};
ghost use Rattle.walk.specs.Step.{Boxed};
ghost use Rattle.walked_lines.specs.Line.{plan_of};
ghost use Rattle.made.specs.Made.{plan_made, made_of};

use box_edges::{edges_of, step_by};
use clip::clip_to;
use panel::kinds::Path;
use setup::walk_at;
use walk::kinds::Walk;

// Step i of a walk, if the clipped walk makes it: how many steps of it stand before, and the tile.
fn made_on(walk: Walk, path: Path, i: u32) -> Option<(u32, u32)>
    requires { (i < step_range) × Boxed path × Starts walk.pace.sign walk.pace.x0 walk.pace.y0 }
    ensures { result ≡ plan_made (plan_of walk path) i }
{
    let clip = clip_to(walk, path);
    let imin = clip.imin;
    let imax = clip.imax;
    if i < imin {
        return None;
    }
    if imax <= i {
        return None;
    }
    match step_by(walk.pace, path, edges_of(path), i) {
        Some((tile, _, _, _)) => Some((i - imin, tile.0)),
        None => None,
    }
}

// Step i of the line with that number, over paths that are checked: how many steps of its clipped walk stand before it, and
// its tile; or no step that the line makes.
pub fn made_at(
    path_nos: &[u32],
    coords: &[f32],
    paths: &[u32],
    line: u32,
    i: u32,
) -> Option<(u32, u32)>
    requires { (length path_nos.now * line_floats ≤ length coords.now) × ((n : ℕ) × (paths_answer paths.now n ≡ Done)) × (i < step_range) }
    ensures { result ≡ made_of path_nos.now coords.now paths.now line i }
{
    if (line as usize) >= path_nos.len() {
        return None;
    }
    let Ok(found) = walk_at(path_nos, coords, paths, line) else {
        return None;
    };
    let (walk, path) = found?;
    made_on(walk, path, i)
}
