// One line that isn't counted in a run of short ones, in which way it goes: inside its path's box, or by its walk.
// docs/RULES.md, counting: 5, then 6, 7 and the skip rules, then its acts.
#![tactic(auto)]

ghost use Rattle.std.specs.Prelude.{◌≡◌, ◌/◌, length};
ghost use Rattle.panel.specs.Widths.{ref_words};
ghost use Rattle.acts.specs.Acts.{st_of};
ghost use Rattle.hits.specs.Notes.{note_words};
ghost use Rattle.walked_lines.specs.Line.{line_ran, tally_ran, line_step, Lent, There};
ghost use Rattle.walked_lines.specs.Tallied.{tallied_told};

use inside_lines::count_direct;
use panel::kinds::LineNo;
use panel::limits::MOST_LINES;
use panel::refusals::Refusal;
use setup::walk_at;
use walked_lines::count_walk;

// The line at a place of those lent, as line number line: the two need not be the same. Whether it lies within one tile is
// not asked. The notes are room to work in.
pub fn count_other(
    line: LineNo,
    place: u32,
    made: u32,
    path_nos: &[u32],
    coords: &[f32],
    paths: &[u32],
    notes: &mut [u32],
    backs: &mut [i32],
    counts: &mut [u32],
    refs: &mut [u32],
) -> Result<u32, Refusal>
    requires { Lent paths.now (length backs.old) (length counts.old) × There place (length path_nos.now) (length coords.now) × (length notes.old ≡ note_words) }
    ensures { tally_ran (tallied_told result) (st_of backs.new counts.new refs.new) made
        ≡ line_ran (line_step path_nos.now coords.now paths.now (length refs.old / ref_words) line.0 place
        (st_of backs.old counts.old refs.old made))
        (st_of backs.old counts.old refs.old made) }
{
    if line.0 >= MOST_LINES {
        return Err(Refusal::LineNumber);
    }
    let direct = count_direct(
        line, place, made, path_nos, coords, paths, notes, backs, counts, refs,
    );
    if let Some(n) = direct {
        return Ok(n);
    }
    let found = walk_at(path_nos, coords, paths, place)?;
    let Some((walk, path)) = found else {
        return Ok(0);
    };
    count_walk(line, made, walk, path, notes, backs, counts, refs)
}
