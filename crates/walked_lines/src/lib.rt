// One line by its walk, clipped to its path's box: its check, then its writes. docs/RULES.md, counting: 8 for the largest
// step number, 9, 11 for row marks, then the steps.
#![tactic(auto)]

ghost use Rattle.std.specs.Prelude.{◌≡◌, ◌/◌, ◌≤◌, length};
ghost use Rattle.panel.specs.Widths.{ref_words};
ghost use Rattle.acts.specs.Acts.{st_of};
ghost use Rattle.acts.specs.Line.{plan_step};
ghost use Rattle.hits.specs.Notes.{note_words, OnTiles};
ghost use Rattle.walked_lines.specs.Line.{rows_by, plan_of, line_ran, tally_ran, Walkable};
ghost use Rattle.walked_lines.specs.Tallied.{tallied_told};

use acts::Rows;
use clip::{Clip, clip_to};
use panel::kinds::{LineNo, Path};
use panel::limits::{MOST_SLOTS, MOST_STEPS};
use panel::refusals::Refusal;
use panel::widths::REF_WORDS;
use walk::kinds::Walk;
use walk_steps::{check_line, write_line};

// The rows that a line passes left of its path's box.
pub fn rows_by(path: Path, clip: Clip) -> Rows
    requires { path.x0 ≤ path.x1 }
    ensures { result ≡ rows_by path clip }
{
    Rows {
        first: path.first,
        top: path.y0,
        width: path.x1 - path.x0,
        low: clip.ymin,
        high: clip.ymax,
    }
}

// A walk, as line number line, after made references: how many references it makes. The notes are room to work in.
pub fn count_walk(
    line: LineNo,
    made: u32,
    walk: Walk,
    path: Path,
    notes: &mut [u32],
    backs: &mut [i32],
    counts: &mut [u32],
    refs: &mut [u32],
) -> Result<u32, Refusal>
    requires { OnTiles path (length backs.old) (length counts.old) × Walkable walk path × (length notes.old ≡ note_words) }
    ensures { tally_ran (tallied_told result) (st_of backs.new counts.new refs.new) made
        ≡ line_ran (plan_step (length refs.old / ref_words) line.0 (plan_of walk path) (st_of backs.old counts.old refs.old made))
        (st_of backs.old counts.old refs.old made) }
{
    let up = !walk.e.is_down;
    let pace = walk.pace;
    let clip = clip_to(walk, path);
    let imin = clip.imin;
    let imax = clip.imax;
    if (imin < imax) & (imax > MOST_STEPS) {
        return Err(Refusal::CountOver);
    }
    let n = imax - imin;
    let after = (made as u64) + (n as u64);
    if (after > (refs.len() / REF_WORDS) as u64) | (after > MOST_SLOTS as u64) {
        return Err(Refusal::NoRoom);
    }
    let rows = rows_by(path, clip);
    let v = check_line(rows, up, pace, path, imin, imax, backs, counts, notes);
    if let Err(why) = v {
        return Err(why);
    }
    write_line(
        rows, up, pace, path, imin, imax, line, made, notes, backs, counts, refs,
    );
    Ok(n)
}
