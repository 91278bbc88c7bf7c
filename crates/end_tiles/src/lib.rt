// The tile that a line's end lies in; and lines checked in order, before boxes are made from them.
// docs/RULES.md, "Boxes". Added: it is in none of the files ported.
#![tactic(auto)]

ghost use Rattle.std.specs.Prelude.{◌≡◌, ◌*◌, ◌≤◌, length};
ghost use Rattle.panel.specs.Widths.{line_floats};
ghost use Rattle.panel.specs.Answer.{answer_told};
ghost use Rattle.end_tiles.specs.Lines.{tile_at, in_tiles, line_answer, lines_from};

use panel::kinds::Refused;
use panel::limits::{EDGE_MOST, MOST_LINES};
use panel::lines::{LineEnds, line_at};
use panel::refusals::Refusal;
use setup::reached;
use util::{TILE_SCALE, Vec2};

// The tile, counted from 0, that a coordinate lies in; one below 0 counts as in tile 0.
pub fn tile_at(v: f32) -> u32
    ensures { result ≡ tile_at v }
{
    float32::to_u32(v * TILE_SCALE)
}

// Whether a point lies in a tile that a box can hold.
fn in_tiles(p: Vec2) -> bool
    ensures { result ≡ in_tiles p }
{
    (tile_at(p.x) < EDGE_MOST) & (tile_at(p.y) < EDGE_MOST)
}

// Line l, with its path's number, among n paths: 5, 6 and 7 with the line's number, 3 with the path's.
fn check_line(e: LineEnds, path: u32, n: u32, l: u32) -> Result<(), Refused>
    ensures { answer_told result ≡ line_answer e path n l }
{
    let p0 = e.p0;
    let p1 = e.p1;
    if l >= MOST_LINES {
        return Err(Refusal::LineNumber.at(l));
    }
    if !reached(p0, p1) {
        return Err(Refusal::Coordinate.at(l));
    }
    if path >= n {
        return Err(Refusal::NoSuch.at(l));
    }
    let held = in_tiles(p0) & in_tiles(p1);
    if !held {
        return Err(Refusal::BadBox.at(path));
    }
    Ok(())
}

// All lines, in order.
pub fn check_lines(path_nos: &[u32], coords: &[f32], n: u32) -> Result<(), Refused>
    requires { length path_nos.now * line_floats ≤ length coords.now }
    ensures { answer_told result ≡ lines_from path_nos.now coords.now n (length path_nos.now) 0 }
{
    for (l, path) in path_nos.iter().enumerate() {
        check_line(line_at(coords, l as u32), *path, n, l as u32)?;
    }
    Ok(())
}
