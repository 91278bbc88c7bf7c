// A batch of lines, and the public call, which asks nothing of its caller.
ghost use Rattle.std.specs.Prelude.{◌≡◌, ◌+◌, ◌*◌, ◌/◌, ◌≤◌, ◌<◌, ◌^◌, length};
ghost use Rattle.panel.specs.Widths.{ref_words, line_floats};
ghost use Rattle.panel.specs.Checks.{first_no};
ghost use Rattle.panel.specs.Paths.{paths_answer};
ghost use Rattle.panel.specs.Answer.{Done};
ghost use Rattle.panel.specs.Verdict.{verdict_told};
ghost use Rattle.acts.specs.Acts.{st_of};
ghost use Rattle.hits.specs.Notes.{note_words};
ghost use Rattle.walked_lines.specs.Line.{line_step, line_ran, tally_ran, Lent, There};
ghost use Rattle.walked_lines.specs.Tallied.{tallied_told};
ghost use Rattle.path_count.specs.Count.{paper_of, made_of, told_of, lent_checks, CountMet};
ghost use Rattle.path_count.specs.Counted.{counted_told};
ghost use Rattle.path_count.specs.Runs.{batch_from, from_told};

use super::kinds::Stopped;
use super::runs::{TRIES, misses_after, ones_if};
use hits::NOTE_ROOM;
use one_line::count_other;
use panel::checks::check_paths;
use panel::kinds::{LineNo, Refused, Running};
use panel::refusals::Refusal;
use panel::widths::{LINE_FLOATS, REF_WORDS};

// The next line, which doesn't lie within one tile or wasn't asked. The number of the line at place k is base + k.
fn count_at(
    base: u32,
    s: Running,
    path_nos: &[u32],
    coords: &[f32],
    paths: &[u32],
    notes: &mut [u32],
    backs: &mut [i32],
    counts: &mut [u32],
    refs: &mut [u32],
) -> Result<u32, Refusal>
    requires { Lent paths.now (length backs.old) (length counts.old) × There s.lines (length path_nos.now) (length coords.now) × (length notes.old ≡ note_words)
        × (base + s.lines < 2 ^ 32) }
    ensures { tally_ran (tallied_told result) (st_of backs.new counts.new refs.new) s.refs
        ≡ line_ran (line_step path_nos.now coords.now paths.now (length refs.old / ref_words) (base + s.lines) s.lines
        (st_of backs.old counts.old refs.old s.refs))
        (st_of backs.old counts.old refs.old s.refs) }
{
    let l = s.lines;
    count_other(
        LineNo(base + l),
        l,
        s.refs,
        path_nos,
        coords,
        paths,
        notes,
        backs,
        counts,
        refs,
    )
}

// The lines at the places from the lines so far up to the end named; the number of the line at place k is base + k. Lines
// within one tile are asked for first, run by run; not after TRIES lines of several references with no run between them,
// as such lines mostly come together. Which way a line is counted changes nothing of it. The notes are room to work in.
pub fn count_batch(
    base: u32,
    running: Running,
    end: u32,
    path_nos: &[u32],
    coords: &[f32],
    paths: &[u32],
    notes: &mut [u32],
    backs: &mut [i32],
    counts: &mut [u32],
    refs: &mut [u32],
) -> Result<Running, Stopped>
    requires { Lent paths.now (length backs.old) (length counts.old) × (running.lines ≤ end)
        × (end ≤ length path_nos.now) × (end * line_floats ≤ length coords.now) × (length notes.old ≡ note_words) × (base + end ≤ 2 ^ 32) }
    ensures { told_of (paper_of (counted_told result)) (st_of backs.new counts.new refs.new (made_of (counted_told result)))
        ≡ from_told base end (batch_from base path_nos.now coords.now paths.now (length refs.old / ref_words) running.lines end
        (st_of backs.old counts.old refs.old running.refs)) }
{
    let mut misses: u32 = 0;
    let mut s = running;
    // A run is many lines long, so a turn goes on by as many.
    while s.lines < end {
        let at = s.lines;
        s = ones_if(
            misses < TRIES,
            base,
            s,
            end,
            path_nos,
            coords,
            paths,
            counts,
            refs,
        );
        if s.lines == end {
            return Ok(s);
        }
        let t = count_at(base, s, path_nos, coords, paths, notes, backs, counts, refs);
        let n = match t {
            Ok(n) => n,
            Err(why) => {
                return Err(Stopped {
                    why,
                    item: base + s.lines,
                    running: s,
                });
            }
        };
        misses = misses_after(misses, (s.lines > at) | (n <= 1));
        s = s.stepped(n);
    }
    Ok(s)
}

// Check 1 of the lengths lent, in the order of the parameters, and of the batch's range.
fn check_lent(
    nn: usize,
    nc: usize,
    nb: usize,
    nt: usize,
    nr: usize,
    a: u32,
    b: u32,
) -> Result<(), Refusal>
    ensures { verdict_told result ≡ first_no (lent_checks nn nc nb nt nr a b) }
{
    if nc % LINE_FLOATS != 0 {
        return Err(Refusal::NotWhole);
    }
    if nn != nc / LINE_FLOATS {
        return Err(Refusal::NotWhole);
    }
    if nb != nt {
        return Err(Refusal::NotWhole);
    }
    if nr % REF_WORDS != 0 {
        return Err(Refusal::NotWhole);
    }
    if b < a {
        return Err(Refusal::NotWhole);
    }
    if nc / LINE_FLOATS < b as usize {
        return Err(Refusal::NotWhole);
    }
    Ok(())
}

// What `count` does over paths that are checked.
pub fn count_checked(
    running: Running,
    end: u32,
    path_nos: &[u32],
    coords: &[f32],
    paths: &[u32],
    backdrops: &mut [i32],
    counts: &mut [u32],
    refs: &mut [u32],
) -> Result<Running, Stopped>
    requires { paths_answer paths.now (length counts.old) ≡ Done }
    ensures { CountMet running end path_nos.now coords.now paths.now backdrops.old counts.old refs.old
        (counted_told result) backdrops.new counts.new refs.new }
{
    let v = check_lent(
        path_nos.len(),
        coords.len(),
        backdrops.len(),
        counts.len(),
        refs.len(),
        running.lines,
        end,
    );
    if let Err(why) = v {
        return Err(Stopped {
            why,
            item: 0,
            running,
        });
    }
    let mut notes = [0u32; NOTE_ROOM];
    count_batch(
        0, running, end, path_nos, coords, paths, &mut notes, backdrops, counts, refs,
    )
}

// Counts the lines from the lines so far up to end.
pub fn count(
    running: Running,
    end: u32,
    path_nos: &[u32],
    coords: &[f32],
    paths: &[u32],
    backdrops: &mut [i32],
    counts: &mut [u32],
    refs: &mut [u32],
) -> Result<Running, Stopped>
    ensures { CountMet running end path_nos.now coords.now paths.now backdrops.old counts.old refs.old
        (counted_told result) backdrops.new counts.new refs.new }
{
    let v = check_lent(
        path_nos.len(),
        coords.len(),
        backdrops.len(),
        counts.len(),
        refs.len(),
        running.lines,
        end,
    );
    if let Err(why) = v {
        return Err(Stopped {
            why,
            item: 0,
            running,
        });
    }
    let a = check_paths(paths, counts.len());
    if let Err(Refused { why, item }) = a {
        return Err(Stopped { why, item, running });
    }
    count_checked(
        running, end, path_nos, coords, paths, backdrops, counts, refs,
    )
}
