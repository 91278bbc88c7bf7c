// One line that lies inside its path's box: its steps are checked in whole numbers and noted, then written by their words.
// One of few steps is counted as it goes instead (`few_steps`). Nothing is refused here: where there is no room, or a step
// doesn't pass so, nothing is left written but notes, and the line is left to its walk (`walked_lines`), which says what
// becomes of it.
#![tactic(auto)]

ghost use Rattle.std.specs.Prelude.{◌≡◌, ◌/◌, length};
ghost use Rattle.panel.specs.Widths.{ref_words};
ghost use Rattle.walk.specs.Lent.{walk_at};
ghost use Rattle.hits.specs.Notes.{note_words};
ghost use Rattle.walked_lines.specs.Line.{Lent, There};
ghost use Rattle.inside_lines.specs.Direct.{DirectMet};

use few_steps::{FEW, count_few};
use hits::NOTE_WORDS;
use panel::kinds::LineNo;
use panel::limits::MOST_SLOTS;
use panel::widths::REF_WORDS;
use quick_notes::quick_steps;
use walk_steps::write_notes;
use within::within_at;

// The line at a place of those lent, as line number line, after made references.
pub fn count_direct(
    line: LineNo,
    place: u32,
    made: u32,
    path_nos: &[u32],
    coords: &[f32],
    paths: &[u32],
    notes: &mut [u32],
    backs: &mut [i32],
    counts: &mut [u32],
    refs: &mut [u32],
) -> Option<u32>
    requires { Lent paths.now (length backs.old) (length counts.old) × There place (length path_nos.now) (length coords.now) × (length notes.old ≡ note_words) }
    ensures { DirectMet (walk_at path_nos.now coords.now paths.now place) (length refs.old / ref_words) line.0 made
        backs.old counts.old refs.old backs.new counts.new refs.new result }
{
    let (pace, path, n, up) = within_at(path_nos, coords, paths, place)?;
    let after = (made as u64) + (n as u64);
    let room = (refs.len() / REF_WORDS) as u64;
    if (n > NOTE_WORDS) | (after > room) | (after > MOST_SLOTS as u64) {
        return None;
    }
    if n <= FEW {
        return count_few(pace, path, n, up, line, made, notes, backs, counts, refs);
    }
    if quick_steps(pace, path, up, 0, n, backs, counts, notes) {
        write_notes(notes, up, line, 0, n, made, backs, counts, refs);
        return Some(n);
    }
    None
}
