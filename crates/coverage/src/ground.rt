// Whether a fill may be made of the segments lent: one question, asked by `fill`, by a tile's FILL
// (crate commands) and for one pixel (crate pixel).
ghost use Rattle.std.specs.Prelude.{◌≡◌, ◌+◌, ◌*◌, ◌≤◌, length};
ghost use Rattle.panel.specs.Verdict.{verdict_told};
ghost use Rattle.panel.specs.Widths.{segment_floats};
ghost use Rattle.coverage.specs.Ground.{straight_from, ground_of};

use panel::refusals::Refusal;
use panel::segments::{segment_at, straight};
use panel::widths::SEGMENT_FLOATS;

// Whether a fill takes each of the n segments from the first on. One branch a segment.
pub fn all_straight(segments: &[f32], first: usize, n: usize) -> bool
    requires { segment_floats * (first + n) ≤ length segments.now }
    ensures { result ≡ straight_from segments.now first n }
{
    for j in 0..n {
        let ok = straight(segment_at(segments, first + j));
        if !ok {
            return false;
        }
    }
    true
}

// So many segments from the first on: 13 where they aren't all among those lent, 20 where one of them
// is crooked.
pub fn ground(segments: &[f32], first: u32, number: u32) -> Result<(), Refusal>
    ensures { verdict_told result ≡ ground_of segments.now first number }
{
    // One more than the segments there are.
    let past = segments.len() / SEGMENT_FLOATS + 1;
    if (first as usize) + (number as usize) >= past {
        return Err(Refusal::PastEnd);
    }
    let ok = all_straight(segments, first as usize, number as usize);
    if !ok {
        return Err(Refusal::BadSegment);
    }
    Ok(())
}
