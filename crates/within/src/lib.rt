// A line as it is lent that lies inside its path's box: what counting needs of its walk, which is not clipped and passes no
// row left of the box. Of any other line it says nothing, and the line is left to `setup` and `clip`.
#![tactic(auto)]

ghost use Rattle.std.specs.Prelude.{◌≡◌, ◌+◌, ◌*◌, ◌<◌, ◌≤◌, length};
ghost use Rattle.panel.specs.Widths.{line_floats};
ghost use Rattle.one_tile.specs.One.{Boxes};
ghost use Rattle.within.specs.Within.{WithinMet};

use inside::inside_at;
use panel::kinds::Path;
use panel::lines::line_at;
use panel::paths::path_at;
use panel::widths::PATH_WORDS;
use walk::kinds::Pace;

// The pace of the line at a place of those lent, its path, the number of its steps, and whether it goes upward; nothing of
// a line that is to be walked.
pub fn within_at(
    path_nos: &[u32],
    coords: &[f32],
    paths: &[u32],
    place: u32,
) -> Option<(Pace, Path, u32, bool)>
    requires { Boxes paths.now × (place < length path_nos.now) × (place * line_floats + line_floats ≤ length coords.now) }
    ensures { WithinMet path_nos.now coords.now paths.now place result }
{
    let path_no = path_nos[place as usize];
    if (path_no as usize) >= paths.len() / PATH_WORDS {
        return None;
    }
    let path = path_at(paths, path_no);
    let (pace, n) = inside_at(coords, place, path)?;
    let line = line_at(coords, place);
    let up = !(line.p1.y >= line.p0.y);
    Some((pace, path, n, up))
}
