// The lines lent to a recount, from one of them on: how many are of its path and numbered one after the other; and why the
// first is refused, where it is of another path.
#![tactic(auto)]

ghost use Rattle.std.specs.Prelude.{◌≡◌, ◌≤◌, ◌<◌, length};
ghost use Rattle.panel.specs.Widths.{line_floats};
ghost use Rattle.panel.specs.Lines.{line_at};
ghost use Rattle.panel.specs.Refusals.{no_of};
ghost use Rattle.stretches.specs.Stretches.{Stretch, other_no};

use panel::kinds::LineNo;
use panel::limits::MOST_LINES;
use panel::lines::line_at;
use panel::refusals::Refusal;
use setup::reached;

// Why the first line lent is refused, which is of another path: 5 and 6 come first.
pub fn other_no(line: LineNo, coords: &[f32]) -> Refusal
    requires { line_floats ≤ length coords.now }
    ensures { no_of result ≡ other_no line.0 (line_at coords.now 0) }
{
    if line.0 >= MOST_LINES {
        return Refusal::LineNumber;
    }
    let ends = line_at(coords, 0);
    if reached(ends.p0, ends.p1) {
        return Refusal::NoSuch;
    }
    Refusal::Coordinate
}

// How many lines from line k on are of this path and numbered one after the other. None, where line k is of another path.
pub fn stretch(path: u32, line_nos: &[u32], path_nos: &[u32], k: usize) -> u32
    requires { (k < length path_nos.now) × (length line_nos.now ≡ length path_nos.now) }
    ensures { Stretch path line_nos.now path_nos.now k result }
{
    let first = line_nos[k] as u64;
    let mut n: u32 = 0;
    // not a `for`: the edit `stretch_with_a_line_not_looked_at` takes another step, and in a `for` it is refused for its form alone
    while n < MOST_LINES {
        let at = k + (n as usize);
        if at >= path_nos.len() {
            return n;
        }
        if path_nos[at] != path {
            return n;
        }
        if line_nos[at] as u64 != first + (n as u64) {
            return n;
        }
        n += 1;
    }
    n
}
