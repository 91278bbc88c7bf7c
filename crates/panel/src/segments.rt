// A segment, relative to its tile, and its place among the floats lent, five to a slot: point0.x,
// point0.y, point1.x, point1.y, y_edge. Tiling writes it, coverage reads it.
ghost use Rattle.std.specs.Prelude.{◌≡◌, ◌+◌, ◌*◌, ◌≤◌, length};
ghost use Rattle.panel.specs.Widths.{segment_floats};
ghost use Rattle.panel.specs.Segments.{segment_at, put_of, held_of, straight_of};

use super::kinds::SlotNo;
use super::widths::SEGMENT_FLOATS;
use util::Vec2;

#[derive(Clone, Copy)]
pub struct Segment {
    pub p0: Vec2,
    pub p1: Vec2,
    pub y_edge: f32,
}

// Segment k of those lent.
pub fn segment_at(segments: &[f32], k: usize) -> Segment
    requires { segment_floats * (k + 1) ≤ length segments.now }
    ensures { result ≡ segment_at segments.now k }
{
    let b = SEGMENT_FLOATS * k;
    let p0 = Vec2 {
        x: segments[b],
        y: segments[b + 1],
    };
    let p1 = Vec2 {
        x: segments[b + 2],
        y: segments[b + 3],
    };
    let y_edge = segments[b + 4];
    Segment { p0, p1, y_edge }
}

// Whether a segment's end is within its tile, 0..16, which NaN isn't: asked of a segment that tiling
// makes (12), and of one that a fill is to take (20).
pub fn held(p: Vec2) -> bool
    ensures { result ≡ held_of p }
{
    ((p.x >= 0.0) & (p.x <= util::TILE_SIDE)) & ((p.y >= 0.0) & (p.y <= util::TILE_SIDE))
}

// Whether a fill takes a segment: both ends within the tile, and y_edge finite.
pub fn straight(s: Segment) -> bool
    ensures { result ≡ straight_of s }
{
    let p0 = s.p0;
    let p1 = s.p1;
    (held(p0) & held(p1)) & float32::is_finite(s.y_edge)
}

// A segment into its slot.
pub fn put(segments: &mut [f32], slot: SlotNo, s: Segment)
    requires { slot.0 * segment_floats + segment_floats ≤ length segments.old }
    ensures { segments.new ≡ put_of slot.0 s segments.old }
{
    let at = (slot.0 as usize) * SEGMENT_FLOATS;
    segments[at] = s.p0.x;
    segments[at + 1] = s.p0.y;
    segments[at + 2] = s.p1.x;
    segments[at + 3] = s.p1.y;
    segments[at + 4] = s.y_edge;
}
