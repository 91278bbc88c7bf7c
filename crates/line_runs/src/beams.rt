// The tag of a line: the beam number of its path. A line that isn't there, and a path that isn't, has
// no number and gives 0: nothing is put for such a line.
ghost use Rattle.std.specs.Prelude.{◌≡◌, get_or};
ghost use Rattle.panel.specs.Paths.{beam_at};

use panel::kinds::LineNo;
use panel::paths::beam_at;
use panel::widths::PATH_WORDS;

pub(crate) fn path_of(path_nos: &[u32], line: LineNo) -> u32
    ensures { result ≡ get_or path_nos.now line.0 0 }
{
    if (line.0 as usize) < path_nos.len() {
        path_nos[line.0 as usize]
    } else {
        0
    }
}

pub(crate) fn tag_of(paths: &[u32], path: u32) -> u32
    ensures { result ≡ beam_at paths.now path }
{
    if (path as usize) < paths.len() / PATH_WORDS {
        beam_at(paths, path)
    } else {
        0
    }
}
