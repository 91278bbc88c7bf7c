// A line that lies within one tile, off its edges, as it is counted: most lines of a trace are. Its one step is on that
// tile and marks nothing, so it needs no walk. Nothing is written here, and nothing refused: where the tile's count or the
// references are at their limit, and of any other line, it says nothing, and the line is left to `one_line`.
#![tactic(auto)]

ghost use Rattle.std.specs.Prelude.{◌≡◌, ◌+◌, ◌*◌, ◌<◌, ◌≤◌, length};
ghost use Rattle.panel.specs.Paths.{paths_answer};
ghost use Rattle.panel.specs.Widths.{line_floats};
ghost use Rattle.panel.specs.Answer.{Done};
ghost use Rattle.one_tile.specs.One.{Boxes, SpotAt, OneMet};

use panel::kinds::TileNo;
use panel::limits::{MOST_COUNT, MOST_SLOTS};
use panel::lines::line_at;
use panel::paths::path_at;
use panel::widths::{PATH_WORDS, REF_WORDS};
use spot::spot_of;

// The tile that the line at a place of those lent lies in: its number, its column and its row.
fn spot_at(
    path_nos: &[u32],
    coords: &[f32],
    paths: &[u32],
    place: u32,
) -> Option<(TileNo, u32, u32)>
    requires { Boxes paths.now × (place < length path_nos.now) × (place * line_floats + line_floats ≤ length coords.now) }
    ensures { SpotAt path_nos.now coords.now paths.now place result }
{
    let path_no = path_nos[place as usize];
    if (path_no as usize) >= paths.len() / PATH_WORDS {
        return None;
    }
    let line = line_at(coords, place);
    spot_of(line.p0, line.p1, path_at(paths, path_no))
}

// That tile, where it can be counted once more and there is room for reference number made; nothing of a line that is to
// be walked.
pub fn one_at(
    place: u32,
    made: u32,
    path_nos: &[u32],
    coords: &[f32],
    paths: &[u32],
    counts: &[u32],
    refs: &[u32],
) -> Option<TileNo>
    requires { (paths_answer paths.now (length counts.now) ≡ Done)
        × (place < length path_nos.now) × (place * line_floats + line_floats ≤ length coords.now) }
    ensures { OneMet path_nos.now coords.now paths.now place made counts.now (length refs.now) result }
{
    let (tile, _, _) = spot_at(path_nos, coords, paths, place)?;
    let n = counts[tile.0 as usize];
    if (made as usize >= refs.len() / REF_WORDS) | (made >= MOST_SLOTS) | (n >= MOST_COUNT) {
        return None;
    }
    Some(tile)
}
