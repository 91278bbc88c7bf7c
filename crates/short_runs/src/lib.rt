// A run of lines that each lie within one tile. Nine in ten lines of a smooth trace do, and to count one takes less than
// to call a function for it: so a run is counted in one loop. Nothing is refused here: the run ends before the first line
// that doesn't lie so, or has no room, and `one_line` says what becomes of that line.
#![tactic(auto)]

ghost use Rattle.std.specs.Prelude.{◌≡◌, ◌+◌, ◌-◌, ◌*◌, ◌≤◌, ◌^◌, min, length};
ghost use Rattle.panel.specs.Limits.{most_lines};
ghost use Rattle.panel.specs.Paths.{paths_answer};
ghost use Rattle.panel.specs.Widths.{line_floats};
ghost use Rattle.panel.specs.Answer.{Done};
ghost use Rattle.short_runs.specs.Ones.{OnesMet};

use acts::visit;
use one_tile::one_at;
use panel::kinds::LineNo;
use panel::limits::MOST_LINES;

// Of so many lines from a place of those lent on, numbered from this line's number on, the first that each lie within one
// tile: how many they are. Each makes one reference, the first as number made.
pub fn count_ones(
    line: LineNo,
    place: u32,
    many: u32,
    made: u32,
    path_nos: &[u32],
    coords: &[f32],
    paths: &[u32],
    counts: &mut [u32],
    refs: &mut [u32],
) -> u32
    requires { (paths_answer paths.now (length counts.old) ≡ Done) × (place + many ≤ 2 ^ 32)
        × (place + many ≤ length path_nos.now) × ((place + many) * line_floats ≤ length coords.now) }
    ensures { OnesMet path_nos.now coords.now paths.now line.0 place many made
        counts.old refs.old counts.new refs.new result }
{
    // Those whose number is not refused.
    let most = many.min(MOST_LINES.saturating_sub(line.0));
    for n in 0..most {
        let one = one_at(place + n, made + n, path_nos, coords, paths, counts, refs);
        let Some(tile) = one else {
            return n;
        };
        visit(tile, LineNo(line.0 + n), 0, made + n, counts, refs);
    }
    most
}
