// How far a path's ends reach, gathered line by line in the working room, four words to a path: by how many
// tiles its first column and its first row lie before the edge limit, then the column and the row past its
// last. All four only grow, and all are 0 where a path has no line. docs/RULES.md, "Boxes". Added: it is in
// none of the files ported.
#![tactic(auto)]

ghost use Rattle.std.specs.Prelude.{◌≡◌, ◌+◌, ◌*◌, ◌≤◌, ◌<◌, length, get_or};
ghost use Rattle.panel.specs.Limits.{edge_most};
ghost use Rattle.panel.specs.Widths.{line_floats};
ghost use Rattle.panel.specs.Lines.{line_at};
ghost use Rattle.panel.specs.Answer.{Done};
ghost use Rattle.end_tiles.specs.Lines.{tile_at, lines_from, LineOk};
ghost use Rattle.path_reach.specs.Room.{box_words};
ghost use Rattle.path_reach.specs.Words.{raised_at, end_reach, line_reach, gather_from};

use end_tiles::tile_at;
use panel::limits::EDGE_MOST;
use panel::lines::line_at;
use util::Vec2;

// Words of working room for each path.
pub const BOX_WORDS: usize = 4;

// A word that only grows.
fn raise(work: &mut [u32], at: usize, v: u32)
    requires { at < length work.old }
    ensures { work.new ≡ raised_at at v work.old }
{
    work[at] = work[at].max(v);
}

// One end of a line of path k.
fn reach_end(work: &mut [u32], k: u32, p: Vec2)
    requires { (k * box_words + box_words ≤ length work.old) × (tile_at p.x < edge_most) × (tile_at p.y < edge_most) }
    ensures { work.new ≡ end_reach k p work.old }
{
    let at = (k as usize) * BOX_WORDS;
    let x = tile_at(p.x);
    let y = tile_at(p.y);
    raise(work, at, EDGE_MOST - x);
    raise(work, at + 1, EDGE_MOST - y);
    raise(work, at + 2, x + 1);
    raise(work, at + 3, y + 1);
}

// Both ends of line l, which has passed its checks.
fn reach_line(path_nos: &[u32], coords: &[f32], l: u32, n: u32, work: &mut [u32])
    requires { (l < length path_nos.now) × (l * line_floats + line_floats ≤ length coords.now) × (n * box_words ≤ length work.old)
        × LineOk (line_at coords.now l) (get_or path_nos.now l 0) n l }
    ensures { work.new ≡ line_reach path_nos.now coords.now l work.old }
{
    let path = path_nos[l as usize];
    let e = line_at(coords, l);
    let p0 = e.p0;
    let p1 = e.p1;
    reach_end(work, path, p0);
    reach_end(work, path, p1);
}

// All lines, which have passed their checks among n paths.
pub fn gather(path_nos: &[u32], coords: &[f32], n: u32, work: &mut [u32])
    requires { (length path_nos.now * line_floats ≤ length coords.now) × (n * box_words ≤ length work.old)
        × (lines_from path_nos.now coords.now n (length path_nos.now) 0 ≡ Done) }
    ensures { work.new ≡ gather_from path_nos.now coords.now (length path_nos.now) 0 work.old }
{
    for l in 0..path_nos.len() {
        reach_line(path_nos, coords, l as u32, n, work);
    }
}
