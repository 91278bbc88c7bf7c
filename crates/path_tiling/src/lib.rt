// A segment for each reference of a range, written at its slot, with its tag beside it: path_tiling.rs.
// docs/RULES.md, tiling's part of "When the panel says no".
#![tactic(auto)]

ghost use Rattle.std.specs.Prelude.{◌≡◌, ◌-◌, ◌/◌, ◌≤◌, ◌<◌, length};
ghost use Rattle.panel.specs.Widths.{ref_words};
ghost use Rattle.panel.specs.Paths.{paths_answer};
ghost use Rattle.panel.specs.Pieces.{pieces};
ghost use Rattle.panel.specs.Answer.{Done, answer_told};
ghost use Rattle.looks.specs.Look.{lent};
ghost use Rattle.line_runs.specs.Runs.{ran_of, Some};
ghost use Rattle.path_tiling.specs.Tiling.{slots_of, whole_of, Ready, range_of, tiled, range_tiled, TileMet};
ghost use Rattle.path_tiling.specs.Runs.{alone_of, NextMet};

use line_runs::tile_line;
use panel::kinds::{LineNo, Refused};
use panel::limits::MOST_SLOTS;
use panel::refs::{named_at, packed_at};
use panel::refusals::Refusal;
use panel::widths::{LINE_FLOATS, PATH_WORDS, REF_WORDS, SEGMENT_FLOATS};
use short_lines::{put_tried, try_short};

// The slots that so many floats have room for.
pub fn slots_of(floats: usize) -> u32
    ensures { result ≡ slots_of floats }
{
    (floats / SEGMENT_FLOATS).min(MOST_SLOTS as usize) as u32
}

// Whether the reference after `from` names another line, or there is none up to `to`: a line within one tile has one
// reference alone.
fn alone(refs: &[u32], from: u32, to: u32) -> bool
    requires { (from < to) × (to ≤ length refs.now / ref_words) }
    ensures { result ≡ alone_of refs.now from to }
{
    if from + 1 == to {
        return true;
    }
    let named = named_at(refs, from);
    let after = named_at(refs, from + 1);
    named != after
}

// The references from `from` up to `to`, as many as are taken at once: the first, where its line lies within one tile, and
// else those that name its line.
fn tile_next(
    from: u32,
    to: u32,
    path_nos: &[u32],
    coords: &[f32],
    paths: &[u32],
    stored: &[u32],
    refs: &[u32],
    slots: u32,
    segments: &mut [f32],
    tags: &mut [u32],
) -> Result<u32, Refused>
    requires { Some from to (lent path_nos.now coords.now paths.now stored.now refs.now) slots (pieces segments.old tags.old) }
    ensures { NextMet from to (lent path_nos.now coords.now paths.now stored.now refs.now)
        slots (pieces segments.old tags.old) (ran_of result (pieces segments.new tags.new)) }
{
    let line = LineNo(named_at(refs, from));
    let packed = packed_at(refs, from);
    let tried = alone(refs, from, to);
    let short = try_short(tried, path_nos, coords, paths, stored, line);
    if put_tried(short, packed, slots, segments, tags) {
        let next = from + 1;
        return Ok(next);
    }
    tile_line(
        line, from, to, path_nos, coords, paths, stored, refs, slots, segments, tags,
    )
}

// The references from `from` up to `to`, in order, up to the first that is refused.
fn tile_range(
    from: u32,
    to: u32,
    path_nos: &[u32],
    coords: &[f32],
    paths: &[u32],
    stored: &[u32],
    refs: &[u32],
    segments: &mut [f32],
    tags: &mut [u32],
) -> Result<(), Refused>
    requires { Ready from to (lent path_nos.now coords.now paths.now stored.now refs.now) (pieces segments.old tags.old) }
    ensures { tiled (answer_told result) (pieces segments.new tags.new) ≡ range_tiled
        (range_of (lent path_nos.now coords.now paths.now stored.now refs.now)
        (slots_of (length segments.old)) (to - from) from) (pieces segments.old tags.old) }
{
    let slots = slots_of(segments.len());
    let mut k = from;
    // not a `for`: a turn takes as many references as name one line
    while k < to {
        k = tile_next(
            k, to, path_nos, coords, paths, stored, refs, slots, segments, tags,
        )?;
    }
    Ok(())
}

// Refusal 1: whole records, paired slices as long as each other, a range that is one.
fn whole(
    from: u32,
    to: u32,
    lines: usize,
    coords: usize,
    paths: usize,
    refs: usize,
    segments: usize,
    tags: usize,
) -> bool
    ensures { result ≡ whole_of from to lines coords paths refs segments tags }
{
    (coords % LINE_FLOATS == 0)
        & (lines == coords / LINE_FLOATS)
        & (paths % PATH_WORDS == 0)
        & (refs % REF_WORDS == 0)
        & (segments % SEGMENT_FLOATS == 0)
        & (tags == segments / SEGMENT_FLOATS)
        & (from <= to)
        & ((to as usize) <= refs / REF_WORDS)
}

// What `tile` does over paths that are checked.
pub fn tile_checked(
    from: u32,
    to: u32,
    path_nos: &[u32],
    coords: &[f32],
    paths: &[u32],
    stored: &[u32],
    refs: &[u32],
    segments: &mut [f32],
    tags: &mut [u32],
) -> Result<(), Refused>
    requires { paths_answer paths.now (length stored.now) ≡ Done }
    ensures { TileMet from to (lent path_nos.now coords.now paths.now stored.now refs.now)
        (pieces segments.old tags.old) (answer_told result) (pieces segments.new tags.new) }
{
    if !whole(
        from,
        to,
        path_nos.len(),
        coords.len(),
        paths.len(),
        refs.len(),
        segments.len(),
        tags.len(),
    ) {
        return Err(Refusal::NotWhole.at(0));
    }
    tile_range(
        from, to, path_nos, coords, paths, stored, refs, segments, tags,
    )
}

// A segment for each of the references from `from` up to `to`, and beside it its tag, the beam number
// of its line's path. It stops before the first refused, with its number. Lines are given by their path
// numbers and their coordinates, the tiles by what hand-out left in them.
pub fn tile(
    from: u32,
    to: u32,
    path_nos: &[u32],
    coords: &[f32],
    paths: &[u32],
    stored: &[u32],
    refs: &[u32],
    segments: &mut [f32],
    tags: &mut [u32],
) -> Result<(), Refused>
    ensures { TileMet from to (lent path_nos.now coords.now paths.now stored.now refs.now)
        (pieces segments.old tags.old) (answer_told result) (pieces segments.new tags.new) }
{
    if !whole(
        from,
        to,
        path_nos.len(),
        coords.len(),
        paths.len(),
        refs.len(),
        segments.len(),
        tags.len(),
    ) {
        return Err(Refusal::NotWhole.at(0));
    }
    panel::checks::check_paths(paths, stored.len())?;
    tile_checked(
        from, to, path_nos, coords, paths, stored, refs, segments, tags,
    )
}
