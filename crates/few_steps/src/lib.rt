// A line of few steps inside its path's box, counted as it goes: each step is checked in whole numbers, noted and written.
// Where a step doesn't pass, those before it are taken back by their notes, so that all is as it was but the notes.
#![tactic(auto)]

ghost use Rattle.std.specs.Prelude.{◌≡◌, ◌+◌, ◌*◌, ◌<◌, ◌≤◌, length};
ghost use Rattle.exact.specs.Reach.{Starts};
ghost use Rattle.panel.specs.Limits.{most_slots};
ghost use Rattle.panel.specs.Widths.{ref_words};
ghost use Rattle.strides.specs.Strides.{strides_of, Before};
ghost use Rattle.acts.specs.Acts.{St, st_of};
ghost use Rattle.hits.specs.Notes.{note_words, OnTiles};
ghost use Rattle.few_steps.specs.Few.{few_steps, kept, Took, Came, TakenMet, Gone, FewMet};

use acts::{leaves, mark_if, next_if, visit};
use panel::kinds::{LineNo, Path, TileNo};
use panel::limits::MOST_COUNT;
use panel::refs::{named_at, packed_at, put_ref};
use strides::{Strides, last_of, stride_at, strides_of, word_marks, word_of, word_tile};
use walk::kinds::Pace;

// A line of so many steps at most is counted as it goes.
pub const FEW: u32 = 16;

// Each step of such a line has so many notes: its word, and the two words that stood where its reference is put. There is
// room for the notes of all of them.
const STEP_NOTES: usize = 3;

// The three notes of step i: its word, and a reference's two words.
fn keep(notes: &mut [u32], i: u32, word: u32, line: u32, packed: u32)
    requires { (i < few_steps) × (length notes.old ≡ note_words) }
    ensures { notes.new ≡ kept i word line packed notes.old }
{
    let k = STEP_NOTES * (i as usize);
    notes[k] = word;
    notes[k + 1] = line;
    notes[k + 2] = packed;
}

// One step as reference number at. Where it passes it is noted and written, and what the next step's z is held against is
// handed back. Which steps mark can't be foretold, so nothing branches on it.
fn take_step(
    pace: Pace,
    path: Path,
    g: Strides,
    up: bool,
    line: LineNo,
    i: u32,
    last: u32,
    at: u32,
    notes: &mut [u32],
    backs: &mut [i32],
    counts: &mut [u32],
    refs: &mut [u32],
) -> Option<u32>
    requires { OnTiles path (length backs.old) (length counts.old) × (i < few_steps) × Starts pace.sign pace.x0 pace.y0
        × (g ≡ strides_of pace path) × Before pace i last × (ref_words * at + ref_words ≤ length refs.old) × (at < most_slots) × (length notes.old ≡ note_words) }
    ensures { TakenMet pace path up line.0 i at notes.old backs.old counts.old refs.old
        notes.new backs.new counts.new refs.new result }
{
    let (tile, marks, z) = stride_at(pace, path, g, i, last)?;
    let own = tile as usize;
    if counts[own] >= MOST_COUNT {
        return None;
    }
    let q = next_if(own, marks);
    if leaves(backs[q], up) {
        return None;
    }
    let word = word_of(tile, marks);
    let named = named_at(refs, at);
    let packed = packed_at(refs, at);
    keep(notes, i, word, named, packed);
    visit(TileNo(tile), line, i, at, counts, refs);
    mark_if(backs, own, marks, up);
    Some(z)
}

// Steps 0 .. n as references made, made + 1, .., up to the first that doesn't pass: how many were taken.
fn go(
    pace: Pace,
    path: Path,
    n: u32,
    up: bool,
    line: LineNo,
    made: u32,
    notes: &mut [u32],
    backs: &mut [i32],
    counts: &mut [u32],
    refs: &mut [u32],
) -> u32
    requires { OnTiles path (length backs.old) (length counts.old) × (n ≤ few_steps) × Starts pace.sign pace.x0 pace.y0
        × (ref_words * (made + n) ≤ length refs.old) × (made + n ≤ most_slots) × (length notes.old ≡ note_words) }
    ensures { Gone pace path up line.0 n result notes.new (st_of backs.old counts.old refs.old made)
        (st_of backs.new counts.new refs.new (made + result)) }
{
    let g = strides_of(pace, path);
    let Some(mut z) = last_of(pace, 0) else {
        return 0;
    };
    for i in 0..n {
        let at = made + i;
        let step = take_step(
            pace, path, g, up, line, i, z, at, notes, backs, counts, refs,
        );
        let Some(next) = step else {
            return i;
        };
        z = next;
    }
    n
}

// One step taken back by its three notes: it was reference number at.
fn undo_step(
    word: u32,
    line: u32,
    packed: u32,
    up: bool,
    at: u32,
    backs: &mut [i32],
    counts: &mut [u32],
    refs: &mut [u32],
)
    requires { (s : St) × Took up word line packed s (st_of backs.old counts.old refs.old (at + 1)) }
    ensures { (s : St) → Took up word line packed s (st_of backs.old counts.old refs.old (at + 1))
        → st_of backs.new counts.new refs.new at ≡ s }
{
    let t = word_tile(word) as usize;
    let marks = word_marks(word);
    let c = counts[t];
    counts[t] = c - 1;
    mark_if(backs, t, marks, !up);
    put_ref(refs, at, line, packed);
}

// The first n steps taken back, the last one first.
fn undo(
    notes: &[u32],
    n: u32,
    up: bool,
    made: u32,
    backs: &mut [i32],
    counts: &mut [u32],
    refs: &mut [u32],
)
    requires { (n ≤ few_steps) × (made + n ≤ most_slots) × (length notes.now ≡ note_words)
        × ((s : St) × Came up notes.now n s (st_of backs.old counts.old refs.old (made + n))) }
    ensures { (s : St) → Came up notes.now n s (st_of backs.old counts.old refs.old (made + n))
        → st_of backs.new counts.new refs.new made ≡ s }
{
    for i in (0..n).rev() {
        let k = STEP_NOTES * (i as usize);
        let word = notes[k];
        let line = notes[k + 1];
        let packed = notes[k + 2];
        undo_step(word, line, packed, up, made + i, backs, counts, refs);
    }
}

// A line of n steps, as line number line, after made references: counted, with the number of its references; or one that is
// to be walked.
pub fn count_few(
    pace: Pace,
    path: Path,
    n: u32,
    up: bool,
    line: LineNo,
    made: u32,
    notes: &mut [u32],
    backs: &mut [i32],
    counts: &mut [u32],
    refs: &mut [u32],
) -> Option<u32>
    requires { OnTiles path (length backs.old) (length counts.old) × (n ≤ few_steps) × Starts pace.sign pace.x0 pace.y0
        × (ref_words * (made + n) ≤ length refs.old) × (made + n ≤ most_slots) × (length notes.old ≡ note_words) }
    ensures { FewMet pace path up line.0 n made backs.old counts.old refs.old
        backs.new counts.new refs.new result }
{
    let taken = go(pace, path, n, up, line, made, notes, backs, counts, refs);
    if taken == n {
        return Some(n);
    }
    undo(notes, taken, up, made, backs, counts, refs);
    None
}
