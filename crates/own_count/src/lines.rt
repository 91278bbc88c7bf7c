// All lines, in order.
ghost use Rattle.std.specs.Prelude.{◌≡◌, ℕ, ◌+◌, ◌*◌, ◌≤◌, ◌<◌, length};
ghost use Rattle.lists.specs.Run.{done};
ghost use Rattle.panel.specs.Limits.{most_lines, most_slots};
ghost use Rattle.panel.specs.Widths.{line_floats};
ghost use Rattle.panel.specs.Paths.{paths_answer};
ghost use Rattle.panel.specs.Answer.{Done};
ghost use Rattle.walked_lines.specs.Line.{line_step};
ghost use Rattle.walked_lines.specs.Tallied.{tallied_told};
ghost use Rattle.own_count.specs.Counted.{own_told};
ghost use Rattle.own_count.specs.Own.{zeroed};
ghost use Rattle.own_count.specs.View.{view_of, KeptFrom, StepAs, Filled, OwnMet};

use super::ZERO_BACK;
use super::steps::own_walk;
use panel::kinds::Refused;
use panel::limits::MOST_LINES;
use panel::refusals::Refusal;
use setup::walk_at;

// The line with that number, after made references.
fn own_line(
    work: &mut [u32],
    n: usize,
    made: u32,
    path_nos: &[u32],
    coords: &[f32],
    paths: &[u32],
    line: u32,
) -> Result<u32, Refusal>
    requires { (paths_answer paths.now n ≡ Done) × (n + n ≤ length work.old) × (line < length path_nos.now)
        × (line * line_floats + line_floats ≤ length coords.now) × (line < most_lines) }
    ensures { StepAs n work.new made (line_step path_nos.now coords.now paths.now most_slots line line (view_of n work.old made)) (tallied_told result)
        × KeptFrom (n + n) work.old work.new }
{
    let found = walk_at(path_nos, coords, paths, line)?;
    let Some((walk, path)) = found else {
        return Ok(0);
    };
    own_walk(work, n, made, walk, path)
}

// All of them: the number of references that they make, or the first refusal, of its line. How many references are made
// before each line is noted behind the tiles' words.
fn own_lines(
    path_nos: &[u32],
    coords: &[f32],
    paths: &[u32],
    n: usize,
    work: &mut [u32],
) -> Result<u32, Refused>
    requires { (paths_answer paths.now n ≡ Done) × (length path_nos.now * line_floats ≤ length coords.now)
        × (n + n + length path_nos.now ≤ length work.old) × (view_of n work.old 0 ≡ zeroed n) }
    ensures { OwnMet path_nos.now coords.now paths.now n work.new (own_told result) }
{
    let starts = n + n;
    let mut made: u32 = 0;
    for l in 0..path_nos.len() {
        let line = l as u32;
        if line >= MOST_LINES {
            return Err(Refusal::LineNumber.at(line));
        }
        work[starts + l] = made;
        let t = own_line(work, n, made, path_nos, coords, paths, line);
        match t {
            Ok(k) => made += k,
            Err(why) => return Err(why.at(line)),
        }
    }
    Ok(made)
}

// So many words from a place on are v.
fn fill(work: &mut [u32], a: usize, n: usize, v: u32)
    requires { a + n ≤ length work.old }
    ensures { Filled a n v work.old work.new }
{
    for k in 0..n {
        work[a + k] = v;
    }
}

// All lines, from zeroed tiles, into the room lent.
pub fn own_count(
    path_nos: &[u32],
    coords: &[f32],
    paths: &[u32],
    n: usize,
    work: &mut [u32],
) -> Result<u32, Refused>
    requires { (paths_answer paths.now n ≡ Done) × (length path_nos.now * line_floats ≤ length coords.now)
        × (n + n + length path_nos.now ≤ length work.old) }
    ensures { OwnMet path_nos.now coords.now paths.now n work.new (own_told result) }
{
    fill(work, 0, n, 0);
    fill(work, n, n, ZERO_BACK);
    own_lines(path_nos, coords, paths, n, work)
}
