// When a batch asks for a run of lines that each lie within one tile (`short_runs`), and the running numbers after it.
ghost use Rattle.std.specs.Prelude.{◌≡◌, ◌+◌, ◌*◌, ◌≤◌, ◌<◌, ◌^◌, length};
ghost use Rattle.panel.specs.Paths.{paths_answer};
ghost use Rattle.panel.specs.Widths.{line_floats};
ghost use Rattle.panel.specs.Answer.{Done};
ghost use Rattle.path_count.specs.Runs.{misses_of, LeftMet};

use panel::kinds::{LineNo, Running};
use short_runs::count_ones;

// After so many misses in a row it is not asked whether the next line lies within one tile.
pub(crate) const TRIES: u32 = 4;

// The misses in a row after one line more, up to TRIES. A hit ends them.
pub(crate) fn misses_after(misses: u32, hit: bool) -> u32
    ensures { result ≡ misses_of misses hit }
{
    if hit {
        0
    } else {
        misses.saturating_add(1).min(TRIES)
    }
}

// The running numbers after the first lines of those up to end that each lie within one tile, where this is asked. The
// number of the line at place k is base + k.
pub(crate) fn ones_if(
    ask: bool,
    base: u32,
    s: Running,
    end: u32,
    path_nos: &[u32],
    coords: &[f32],
    paths: &[u32],
    counts: &mut [u32],
    refs: &mut [u32],
) -> Running
    requires { (paths_answer paths.now (length counts.old) ≡ Done) × (s.lines < end)
        × (end ≤ length path_nos.now) × (end * line_floats ≤ length coords.now) × (base + end ≤ 2 ^ 32) }
    ensures { LeftMet base path_nos.now coords.now paths.now end s
        counts.old refs.old counts.new refs.new result }
{
    if !ask {
        return s;
    }
    let l = s.lines;
    let n = count_ones(
        LineNo(base + l),
        l,
        end - l,
        s.refs,
        path_nos,
        coords,
        paths,
        counts,
        refs,
    );
    Running {
        lines: l + n,
        refs: s.refs + n,
    }
}
