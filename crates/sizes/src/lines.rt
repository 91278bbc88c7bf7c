// The references that counting makes of the lines. A line's are the steps of its clipped walk, which
// its clip tells: no step is walked.
ghost use Rattle.std.specs.Prelude.{◌≡◌, ◌*◌, ◌<◌, ◌≤◌, ◌+◌, length};
ghost use Rattle.panel.specs.Limits.{most_lines};
ghost use Rattle.panel.specs.Widths.{line_floats};
ghost use Rattle.walked_lines.specs.Line.{plan_of};
ghost use Rattle.walked_lines.specs.Tallied.{tallied_told};
ghost use Rattle.sizes.specs.RefsMade.{refs_told};
ghost use Rattle.sizes.specs.Refs.{plan_size, line_size, refs_of, tallied_size};

use clip::clip_to;
use panel::kinds::{Path, Refused};
use panel::limits::{MOST_LINES, MOST_SLOTS, MOST_STEPS};
use panel::refusals::Refusal;
use setup::walk_at;
use walk::kinds::Walk;

// A walk, after made references.
fn size_walk(walk: Walk, path: Path, made: u32) -> Result<u32, Refusal>
    ensures { tallied_size made (tallied_told result) ≡ plan_size (plan_of walk path) made }
{
    let clip = clip_to(walk, path);
    let imin = clip.imin;
    let imax = clip.imax;
    if (imin < imax) & (imax > MOST_STEPS) {
        return Err(Refusal::CountOver);
    }
    let n = imax - imin;
    if (made as u64) + (n as u64) > MOST_SLOTS as u64 {
        return Err(Refusal::NoRoom);
    }
    Ok(n)
}

// The line with that number, after made references.
fn size_line(
    path_nos: &[u32],
    coords: &[f32],
    paths: &[u32],
    line: u32,
    made: u32,
) -> Result<u32, Refusal>
    requires { (line < length path_nos.now) × (line * line_floats + line_floats ≤ length coords.now) × (line < most_lines) }
    ensures { tallied_size made (tallied_told result) ≡ line_size path_nos.now coords.now paths.now line made }
{
    match walk_at(path_nos, coords, paths, line)? {
        None => Ok(0),
        Some((walk, path)) => size_walk(walk, path, made),
    }
}

// All of them, up to the first that is refused.
pub fn size_lines(path_nos: &[u32], coords: &[f32], paths: &[u32]) -> Result<u32, Refused>
    requires { length path_nos.now * line_floats ≤ length coords.now }
    ensures { refs_told result ≡ refs_of path_nos.now coords.now paths.now }
{
    let mut made: u32 = 0;
    for l in 0..path_nos.len() {
        if l >= MOST_LINES as usize {
            return Err(Refusal::LineNumber.at(l as u32));
        }
        let t = size_line(path_nos, coords, paths, l as u32, made);
        match t {
            Ok(k) => made += k,
            Err(why) => return Err(why.at(l as u32)),
        }
    }
    Ok(made)
}
