// The walk clipped to its path's box, in step numbers, and the rows it passes left of the box:
// path_count.rs, lines 68 to 126. docs/RULES.md, "The walk of a line".
#![tactic(auto)]

ghost use Rattle.std.specs.Prelude.{◌≡◌};
ghost use Rattle.clip.specs.Clip.{row_step_by, col_step_of, first_step_of, last_step_of, rows_of, left_of, enter_of, leave_of, by_left_of, by_right_of, cols_of};
ghost use Rattle.clip.specs.Page.{clipped_of};

use float32::pick;
use panel::kinds::Path;
use walk::choose::row;
use walk::kinds::Walk;
use walk::step::z_at;

// Steps imin to imax of the walk are left, and rows ymin to ymax are marked in the box's first
// column. The rows are unsigned: a negative one is 0, and the box's top is no higher.
#[derive(Clone, Copy)]
pub struct Clip {
    pub imin: u32,
    pub imax: u32,
    pub ymin: u32,
    pub ymax: u32,
}

// The step at which the walk comes to the row `edge`: iminf and imaxf.
fn row_step(a: f32, b: f32, y0: f32, edge: f32) -> u32
    ensures { result ≡ row_step_by a b y0 edge }
{
    let f = float32::round((edge - y0 + b - a) / (1.0 - a)) - 1.0;
    float32::to_u32(pick(y0 + f - z_at(a, b, f) < edge, f + 1.0, f))
}

// The step at which it comes to the column `edge`: f.
fn col_step(w: Walk, edge: f32) -> f32
    ensures { result ≡ col_step_of w edge }
{
    let a = w.pace.a;
    let b = w.pace.b;
    let x0 = w.pace.x0;
    let sign = w.pace.sign;
    let is_positive_slope = w.is_positive_slope;
    let fudge = pick(is_positive_slope, 0.0, 1.0);
    let f = float32::round((sign * (edge - x0) - b + fudge) / a);
    pick(
        (x0 + sign * z_at(a, b, f) < edge) == is_positive_slope,
        f + 1.0,
        f,
    )
}

// imin, by the box's top.
fn first_step(w: Walk, top: f32) -> u32
    ensures { result ≡ first_step_of w top }
{
    if w.e.s0.y < top {
        row_step(w.pace.a, w.pace.b, w.pace.y0, top)
    } else {
        0
    }
}

// imax, by its bottom.
fn last_step(w: Walk, bottom: f32) -> u32
    ensures { result ≡ last_step_of w bottom }
{
    if w.e.s1.y > bottom {
        row_step(w.pace.a, w.pace.b, w.pace.y0, bottom)
    } else {
        w.k.count
    }
}

// The steps in the box's rows.
fn by_rows(w: Walk, b: Path) -> Clip
    ensures { result ≡ rows_of w b }
{
    let imin = first_step(w, float32::of_u32(b.y0));
    let imax = last_step(w, float32::of_u32(b.y1));
    Clip {
        imin,
        imax,
        ymin: 0,
        ymax: 0,
    }
}

// All of the line lies left of the box: no step is left.
fn all_left(w: Walk, c: Clip) -> Clip
    ensures { result ≡ left_of w c }
{
    let ymin = row(float32::ceil(w.e.s0.y));
    let ymax = row(float32::ceil(w.e.s1.y));
    Clip {
        imax: c.imin,
        ymin,
        ymax,
        ..c
    }
}

// Part of it does: where x rises it comes in at step f, and where x falls it goes out there.
fn enter(w: Walk, f: f32, c: Clip) -> Clip
    ensures { result ≡ enter_of w f c }
{
    let y0 = w.pace.y0;
    let ynext = row(y0 + f - z_at(w.pace.a, w.pace.b, f) + 1.0);
    let i = float32::to_u32(f);
    if w.is_positive_slope {
        if i > c.imin {
            let ymin = row(y0 + pick(y0 == w.e.s0.y, 0.0, 1.0));
            return Clip {
                imin: i,
                ymin,
                ymax: ynext,
                ..c
            };
        }
        return c;
    }
    if i < c.imax {
        let ymax = row(float32::ceil(w.e.s1.y));
        return Clip {
            imax: i,
            ymin: ynext,
            ymax,
            ..c
        };
    }
    c
}

// Part of it lies right of the box.
fn leave(w: Walk, f: f32, c: Clip) -> Clip
    ensures { result ≡ leave_of w f c }
{
    let i = float32::to_u32(f);
    if w.is_positive_slope {
        let imax = c.imax.min(i);
        return Clip { imax, ..c };
    }
    let imin = c.imin.max(i);
    Clip { imin, ..c }
}

// Cut where it comes over the box's left edge.
fn by_left(w: Walk, edge: f32, c: Clip) -> Clip
    ensures { result ≡ by_left_of w edge c }
{
    if float32::min(w.e.s0.x, w.e.s1.x) < edge {
        enter(w, col_step(w, edge), c)
    } else {
        c
    }
}

// Cut where it comes over the right one.
fn by_right(w: Walk, edge: f32, c: Clip) -> Clip
    ensures { result ≡ by_right_of w edge c }
{
    if float32::max(w.e.s0.x, w.e.s1.x) > edge {
        leave(w, col_step(w, edge), c)
    } else {
        c
    }
}

// Cut to the box's columns.
fn by_cols(w: Walk, b: Path, c: Clip) -> Clip
    ensures { result ≡ cols_of w b c }
{
    let left = float32::of_u32(b.x0);
    if float32::max(w.e.s0.x, w.e.s1.x) < left {
        all_left(w, c)
    } else {
        by_right(w, float32::of_u32(b.x1), by_left(w, left, c))
    }
}

// The walk w over the box of its path.
pub fn clip_to(w: Walk, b: Path) -> Clip
    ensures { result ≡ clipped_of w b }
{
    let c = by_cols(w, b, by_rows(w, b));
    let imax = c.imin.max(c.imax);
    let ymin = c.ymin.max(b.y0);
    let ymax = c.ymax.min(b.y1);
    Clip {
        imax,
        ymin,
        ymax,
        ..c
    }
}
