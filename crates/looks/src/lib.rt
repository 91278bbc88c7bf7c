// What one reference comes to: path_tiling.rs, lines 24 to 28 and 56 to 76, with the refusals in the
// place of its panics.
#![tactic(auto)]

ghost use Rattle.std.specs.Prelude.{◌≡◌, ◌*◌, ◌<◌, ◌≤◌, ◌^◌, length};
ghost use Rattle.panel.specs.Widths.{line_floats, step_range};
ghost use Rattle.panel.specs.Paths.{end_of};
ghost use Rattle.exact.specs.Reach.{Starts};
ghost use Rattle.walk.specs.Step.{Boxed, step_of};
ghost use Rattle.carry.specs.Carry.{zs_of};
ghost use Rattle.walk.specs.Walked.{walked_told};
ghost use Rattle.segment.specs.By.{piece_by};
ghost use Rattle.panel.specs.Refs.{step_no};
ghost use Rattle.looks.specs.Look.{StepFits, FoundFits, word_to, step_to, found_to, found_of};
ghost use Rattle.looks.specs.Looked.{look_told};
ghost use Rattle.looks.specs.Carry.{step_by_word, Carries, HasZs};

use box_edges::{edges_of, step_with};
use carry::{Zs, zs_at};
use panel::kinds::{LineNo, Path, SlotNo, TileNo};
use panel::refs::{slice_of, step_of};
use panel::refusals::Refusal;
use panel::segments::Segment;
use panel::slots::{flipped, skips};
use util::Vec2;
use walk::kinds::Walk;

// The word of a step's tile, whose corner is t, with the slice number: a segment and its slot, which must be among the
// slots (9) as the segment's ends must be in the tile (12); or nothing, where the tile is empty.
fn look_word(
    w: Walk,
    s: Zs,
    t: Vec2,
    word: u32,
    slice: u32,
    slots: u32,
) -> Result<Option<(SlotNo, Segment)>, Refusal>
    requires { (s.at < step_range) × (slice < 2 ^ 31) }
    ensures { look_told result ≡ word_to slots word slice (piece_by w s t) }
{
    if skips(word) {
        return Ok(None);
    }
    let slot = flipped(word) + slice;
    if slot >= slots {
        return Err(Refusal::NoRoom);
    }
    let piece = segment::piece_of(w, s, t);
    let Some(s) = piece else {
        return Err(Refusal::Crooked);
    };
    Ok(Some((SlotNo(slot), s)))
}

// A step of a line that is walked, with its z's: its tile must be in the box (10).
fn look_step(
    w: Walk,
    step: Option<(TileNo, u32, u32, f32)>,
    s: Zs,
    t: Vec2,
    slice: u32,
    stored: &[u32],
    slots: u32,
) -> Result<Option<(SlotNo, Segment)>, Refusal>
    requires { (s.at < step_range) × (slice < 2 ^ 31) × StepFits (length stored.now) step }
    ensures { look_told result ≡ step_by_word stored.now slots slice (piece_by w s t) step }
{
    let Some((tile, _, _, _)) = step else {
        return Err(Refusal::Outside);
    };
    look_word(w, s, t, stored[tile.0 as usize], slice, slots)
}

// The step of a line whose z's are at hand, and its slice number.
fn look_line(
    w: Walk,
    p: Path,
    s: Zs,
    slice: u32,
    stored: &[u32],
    slots: u32,
) -> Result<Option<(SlotNo, Segment)>, Refusal>
    requires { (s.at < step_range) × (slice < 2 ^ 31) × Boxed p × (end_of p ≤ length stored.now) × Starts w.pace.sign w.pace.x0 w.pace.y0
        × (s ≡ zs_of w.pace s.at) }
    ensures { look_told result ≡ step_to stored.now slots w s.at slice (step_of w.pace p s.at) }
{
    let step = step_with(w.pace, p, edges_of(p), s.at, s.z);
    let t = segment::corner_at(w.pace, s.at, s.z);
    look_step(w, step, s, t, slice, stored, slots)
}

// The z's of a reference's step, by those of the reference before it; of a line that isn't walked there are none.
pub fn zs_on(found: Result<Option<(Walk, Path)>, Refusal>, last: Zs, packed: u32) -> Zs
    requires { Carries last (walked_told found) }
    ensures { HasZs (step_no packed) result (walked_told found) }
{
    if let Ok(Some((w, _))) = found {
        zs_at(w.pace, last, step_of(packed))
    } else {
        last
    }
}

// A reference's second word, where its line is as the walk found it: refused, or skipped (7). s has its step's z's.
pub fn look_at(
    found: Result<Option<(Walk, Path)>, Refusal>,
    s: Zs,
    packed: u32,
    stored: &[u32],
    slots: u32,
) -> Result<Option<(SlotNo, Segment)>, Refusal>
    requires { FoundFits (length stored.now) (walked_told found) × HasZs (step_no packed) s (walked_told found) }
    ensures { look_told result ≡ found_to stored.now slots packed (walked_told found) }
{
    match found {
        Err(why) => Err(why),
        Ok(None) => Err(Refusal::NoSuch),
        Ok(Some((w, p))) => look_line(w, p, s, slice_of(packed), stored, slots),
    }
}

// A line as the walk finds it; no such line is refused (7).
pub fn found_at(
    path_nos: &[u32],
    coords: &[f32],
    paths: &[u32],
    line: LineNo,
) -> Result<Option<(Walk, Path)>, Refusal>
    requires { length path_nos.now * line_floats ≤ length coords.now }
    ensures { walked_told result ≡ found_of path_nos.now coords.now paths.now line.0 }
{
    if (line.0 as usize) < path_nos.len() {
        setup::walk_at(path_nos, coords, paths, line.0)
    } else {
        Err(Refusal::NoSuch)
    }
}
