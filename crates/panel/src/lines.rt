// A line as it is lent: its two points, read and written.
ghost use Rattle.std.specs.Prelude.{◌≡◌, cond, ◌+◌, ◌*◌, ◌≤◌, length};
ghost use Rattle.std.proofs.lemmas.List.Edits.{sets};
ghost use Rattle.panel.specs.Widths.{line_floats};
ghost use Rattle.panel.specs.Lines.{line_at, line_record};

use super::widths::LINE_FLOATS;
use util::Vec2;

// A line's points, as it is drawn.
#[derive(Clone, Copy)]
pub struct LineEnds {
    pub p0: Vec2,
    pub p1: Vec2,
}

pub fn line_at(coords: &[f32], line_no: u32) -> LineEnds
    requires { line_no * line_floats + line_floats ≤ length coords.now }
    ensures { result ≡ line_at coords.now line_no }
{
    let at = (line_no as usize) * LINE_FLOATS;
    let p0 = Vec2 {
        x: coords[at],
        y: coords[at + 1],
    };
    let p1 = Vec2 {
        x: coords[at + 2],
        y: coords[at + 3],
    };
    LineEnds { p0, p1 }
}

// How far a line's second point is from its first, in floats, where t is true.
fn far_if(t: bool) -> usize
    ensures { (result ≡ cond t 2 0) × (result ≤ 2) }
{
    if t { 2 } else { 0 }
}

// One of a line's points: the second where t is true, else the first. Its floats are found by their place, with no branch,
// where which of the two it is can't be foretold.
pub fn end_at(coords: &[f32], line_no: u32, t: bool) -> Vec2
    requires { line_no * line_floats + line_floats ≤ length coords.now }
    ensures { result ≡ cond t (line_at coords.now line_no).p1 (line_at coords.now line_no).p0 }
{
    let at = (line_no as usize) * LINE_FLOATS + far_if(t);
    Vec2 {
        x: coords[at],
        y: coords[at + 1],
    }
}

// A line's floats, from a place on; and the place after them.
pub fn put_line(x0: f32, y0: f32, x1: f32, y1: f32, coords: &mut [f32], at: usize) -> usize
    requires { at + line_floats ≤ length coords.old }
    ensures { (result ≡ at + line_floats) × (coords.new ≡ sets coords.old at (line_record x0 y0 x1 y1)) }
{
    coords[at] = x0;
    coords[at + 1] = y0;
    coords[at + 2] = x1;
    coords[at + 3] = y1;
    at + LINE_FLOATS
}
