// A run of references that name one line: path_tiling.rs. The line and its tag are found once; for each reference a segment
// is written at its slot, with the tag beside it, up to the first that is refused.
#![tactic(auto)]

mod beams;

ghost use Rattle.std.specs.Prelude.{◌≡◌, ◌-◌, ◌*◌, ◌/◌, ◌≤◌, length};
ghost use Rattle.panel.specs.Widths.{ref_words, segment_floats};
ghost use Rattle.panel.specs.Refs.{step_no};
ghost use Rattle.panel.specs.Pieces.{pieces};
ghost use Rattle.panel.specs.Verdict.{verdict_told};
ghost use Rattle.walk.specs.Walked.{walked_told};
ghost use Rattle.looks.specs.Look.{lent, FoundFits, found_to};
ghost use Rattle.looks.specs.Carry.{HasZs};
ghost use Rattle.looks.specs.One.{one, one_of};
ghost use Rattle.line_runs.specs.Runs.{ran_of, run_of, line_run, Some};

use carry::{Zs, no_zs};
use panel::kinds::{LineNo, Path, Refused};
use panel::refs::{named_at, packed_at};
use panel::refusals::Refusal;
use panel::segments::put;
use walk::kinds::Walk;

// One reference, whose line is as the walk found it and has this tag, with the z's of its step.
fn tile_one(
    found: Result<Option<(Walk, Path)>, Refusal>,
    zs: Zs,
    tag: u32,
    packed: u32,
    stored: &[u32],
    slots: u32,
    segments: &mut [f32],
    tags: &mut [u32],
) -> Result<(), Refusal>
    requires { FoundFits (length stored.now) (walked_told found) × HasZs (step_no packed) zs (walked_told found)
        × (slots * segment_floats ≤ length segments.old) × (slots ≤ length tags.old) }
    ensures { one (verdict_told result) (pieces segments.new tags.new)
        ≡ one_of tag (found_to stored.now slots packed (walked_told found)) (pieces segments.old tags.old) }
{
    let look = looks::look_at(found, zs, packed, stored, slots)?;
    let Some((slot, s)) = look else {
        return Ok(());
    };
    put(segments, slot, s);
    tags[slot.0 as usize] = tag;
    Ok(())
}

// The references from `from` up to `to`, in order, as long as they name this line, up to the first that
// is refused: the first that names another line. The line's numbers and its tag are found once for all of
// them, and a step's z's are carried to the next.
fn tile_run(
    found: Result<Option<(Walk, Path)>, Refusal>,
    tag: u32,
    line: LineNo,
    from: u32,
    to: u32,
    stored: &[u32],
    refs: &[u32],
    slots: u32,
    segments: &mut [f32],
    tags: &mut [u32],
) -> Result<u32, Refused>
    requires { FoundFits (length stored.now) (walked_told found) × (slots * segment_floats ≤ length segments.old) × (slots ≤ length tags.old)
        × (from ≤ to) × (to ≤ length refs.now / ref_words) }
    ensures { ran_of result (pieces segments.new tags.new)
        ≡ run_of stored.now slots refs.now (walked_told found) tag line.0 (to - from) from (pieces segments.old tags.old) }
{
    let mut zs = no_zs();
    for k in from..to {
        let named = named_at(refs, k);
        if named != line.0 {
            return Ok(k);
        }
        let packed = packed_at(refs, k);
        zs = looks::zs_on(found, zs, packed);
        if let Err(why) = tile_one(found, zs, tag, packed, stored, slots, segments, tags) {
            return Err(why.at(k));
        }
    }
    Ok(to)
}

// The references from `from` up to `to` as long as they name this line, which is found here with its tag.
pub fn tile_line(
    line: LineNo,
    from: u32,
    to: u32,
    path_nos: &[u32],
    coords: &[f32],
    paths: &[u32],
    stored: &[u32],
    refs: &[u32],
    slots: u32,
    segments: &mut [f32],
    tags: &mut [u32],
) -> Result<u32, Refused>
    requires { Some from to (lent path_nos.now coords.now paths.now stored.now refs.now) slots (pieces segments.old tags.old) }
    ensures { ran_of result (pieces segments.new tags.new)
        ≡ line_run (lent path_nos.now coords.now paths.now stored.now refs.now)
        slots line.0 to from (pieces segments.old tags.old) }
{
    let found = looks::found_at(path_nos, coords, paths, line);
    let path = beams::path_of(path_nos, line);
    let tag = beams::tag_of(paths, path);
    tile_run(
        found, tag, line, from, to, stored, refs, slots, segments, tags,
    )
}
