// Whether lines make closed outlines: each path's lines, in order, come back bit for bit to where they
// began. The Rust has no such call. docs/RULES.md, "Closed outlines".
#![tactic(auto)]

ghost use Rattle.std.specs.Prelude.{Err, ◌≡◌, cond, not, ◌&&◌, ◌+◌, ◌-◌, ◌*◌, ◌≤◌, ◌<◌, eqb, length, get_or};
ghost use Rattle.panel.specs.Limits.{most_lines};
ghost use Rattle.panel.specs.Checks.{first_no};
ghost use Rattle.panel.specs.Verdict.{verdict_told};
ghost use Rattle.panel.specs.Answer.{answer_told};
ghost use Rattle.outlines.specs.Outlines.{same_bits, same_point, meets, reaches, first_open};
ghost use Rattle.outlines.specs.Call.{room_words, lent_checks, first_bad, bad_answer, open_if, OutlinesMet};
ghost use Rattle.outlines.specs.Told.{Lent, HasWords, Noted, turned, sooner_of, turned_best, LeastEnded, Ready, Clear, Passed};

use panel::kinds::Refused;
use panel::limits::{MOST_LINES, MOST_PATHS};
use panel::lines::line_at;
use panel::refusals::Refusal;
use panel::widths::LINE_FLOATS;
use ranges::clear;
use util::Vec2;

// Words of working room for each path: the first line of its last outline; its last line, and 1.
const ROOM_WORDS: usize = 2;

// The same bits; a NaN has those of nothing.
fn same_bits(x: f32, y: f32) -> bool
    ensures { result ≡ same_bits x y }
{
    if x == y {
        f32::to_bits(x) == f32::to_bits(y)
    } else {
        false
    }
}

#[tactic(auto, unfolding(crate::specs::Outlines::same_point))]
fn same_point(p: Vec2, q: Vec2) -> bool
    ensures { result ≡ same_point p q }
{
    same_bits(p.x, q.x) & same_bits(p.y, q.y)
}

// Whether line k ends where line l starts.
#[tactic(auto, unfolding(crate::specs::Outlines::meets))]
fn line_meets(coords: &[f32], k: u32, l: u32) -> bool
    requires { Lent coords.now k × Lent coords.now l }
    ensures { result ≡ meets coords.now k l }
{
    let a = line_at(coords, k);
    let b = line_at(coords, l);
    same_point(a.p1, b.p0)
}

// The same of a line that is told as one more; of none, told as 0, it is false.
fn line_reaches(coords: &[f32], last: u32, l: u32) -> bool
    requires { 0 < last → Lent coords.now (last - 1) × Lent coords.now l }
    ensures { result ≡ reaches coords.now last l }
{
    if last == 0 {
        return false;
    }
    line_meets(coords, last - 1, l)
}

// A function, and no `if` in its place: so `turn` has one path, and its proof one case.
fn pick(t: bool, a: u32, b: u32) -> u32
    ensures { result ≡ cond t a b }
{
    if t { a } else { b }
}

// The least line found so far, or one that is told as one more: unless that is none, or fine.
fn sooner(best: u32, last: u32, fine: bool) -> u32
    ensures { result ≡ sooner_of best last fine }
{
    if fine | (last == 0) {
        return best;
    }
    if best < last { best } else { last - 1 }
}

// Line i, of path p: the path's words afterwards, and the least line found so far after which an
// outline stands open that another line has ended.
fn turn(coords: &[f32], work: &mut [u32], p: u32, i: u32, best: u32) -> u32
    requires { HasWords work.old p × (i < most_lines) × ((0 < get_or work.old (p * room_words + 1) 0) → Lent coords.now (get_or work.old (p * room_words + 1) 0 - 1)
        × Lent coords.now (get_or work.old (p * room_words) 0)) × Lent coords.now i }
    ensures { (work.new ≡ turned coords.now work.old p i)
        × (result ≡ turned_best coords.now work.old p i best) }
{
    let at = (p as usize) * ROOM_WORDS;
    let head = work[at];
    let last = work[at + 1];
    let on = line_reaches(coords, last, i);
    let closed = line_reaches(coords, last, head);
    work[at] = pick(on, head, i);
    work[at + 1] = i + 1;
    sooner(best, last, on | closed)
}

// All lines, in order, with the room clear at first: the least line after which an outline stands
// open that another line has ended; the number of lines where there is none.
fn pass(path_nos: &[u32], coords: &[f32], work: &mut [u32]) -> u32
    requires { Ready path_nos.now coords.now work.old × Clear work.old }
    ensures { Passed path_nos.now coords.now work.old work.new result }
{
    let n = path_nos.len() as u32;
    let mut best = n;
    for i in 0..n {
        best = turn(coords, work, path_nos[i as usize], i, best);
    }
    best
}

// Whether line l is its path's last, and its outline stands open after it.
fn ends_open(coords: &[f32], last: u32, head: u32, l: u32) -> bool
    requires { (l < most_lines) × (last ≡ l + 1 → Lent coords.now l × Lent coords.now head) }
    ensures { result ≡ (eqb last (l + 1) && not (meets coords.now l head)) }
{
    if last != l + 1 {
        return false;
    }
    !line_meets(coords, l, head)
}

// The first line below best after which an outline stands open with no other line to come; else best.
fn settle(path_nos: &[u32], coords: &[f32], work: &[u32], best: u32) -> u32
    requires { Ready path_nos.now coords.now work.now × Noted path_nos.now coords.now (length path_nos.now) work.now
        × LeastEnded path_nos.now coords.now (length path_nos.now) (length path_nos.now) best }
    ensures { result ≡ first_open path_nos.now coords.now }
{
    for l in 0..best {
        let at = (path_nos[l as usize] as usize) * ROOM_WORDS;
        if ends_open(coords, work[at + 1], work[at], l) {
            return l;
        }
    }
    best
}

// The first line that counting would refuse for its number or its path; the number of lines where
// there is none.
fn first_bad(path_nos: &[u32], paths: u32) -> usize
    ensures { result ≡ first_bad path_nos.now paths }
{
    for (l, no) in path_nos.iter().enumerate() {
        if (MOST_LINES as usize <= l) | (paths <= *no) {
            return l;
        }
    }
    path_nos.len()
}

// Checks 1, 2 and 9 of what is lent.
fn check_lent(nn: usize, nc: usize, paths: u32, nw: usize) -> Result<(), Refusal>
    ensures { verdict_told result ≡ first_no (lent_checks nn nc paths nw) }
{
    if nc % LINE_FLOATS != 0 {
        return Err(Refusal::NotWhole);
    }
    if nn != nc / LINE_FLOATS {
        return Err(Refusal::NotWhole);
    }
    if paths > MOST_PATHS {
        return Err(Refusal::TooMany);
    }
    if (paths as usize) * ROOM_WORDS > nw {
        return Err(Refusal::NoRoom);
    }
    Ok(())
}

// Why counting would refuse line l: 5, and then 7.
#[tactic(auto, unfolding(crate::specs::Call::bad_answer))]
fn bad_answer(l: usize) -> Refused
    requires { l ≤ most_lines }
    ensures { answer_told (Err result) ≡ bad_answer l }
{
    if MOST_LINES as usize <= l {
        return Refusal::LineNumber.at(l as u32);
    }
    Refusal::NoSuch.at(l as u32)
}

// Done where the first open outline is none of n lines.
#[tactic(auto, unfolding(crate::specs::Call::open_if))]
fn open_answer(l: u32, n: usize) -> Result<(), Refused>
    ensures { answer_told result ≡ open_if l n }
{
    if (l as usize) < n {
        return Err(Refusal::LeftOpen.at(l));
    }
    Ok(())
}

// The first open outline of checked lines.
fn first_open(path_nos: &[u32], coords: &[f32], work: &mut [u32]) -> u32
    requires { Ready path_nos.now coords.now work.old }
    ensures { result ≡ first_open path_nos.now coords.now }
{
    clear(work, 0, work.len(), 0);
    let best = pass(path_nos, coords, work);
    settle(path_nos, coords, work, best)
}

// Whether each path's lines, in order, make closed outlines; if not, the first line after which one
// stands open. The working room is cleared afterwards, so far as it is asked for.
pub fn outlines(
    path_nos: &[u32],
    coords: &[f32],
    paths: u32,
    work: &mut [u32],
) -> Result<(), Refused>
    ensures { OutlinesMet path_nos.now coords.now paths work.old (answer_told result) work.new }
{
    check_lent(path_nos.len(), coords.len(), paths, work.len())?;
    let bad = first_bad(path_nos, paths);
    if bad < path_nos.len() {
        return Err(bad_answer(bad));
    }
    let n = (paths as usize) * ROOM_WORDS;
    let l = first_open(path_nos, coords, &mut work[..n]);
    clear(work, 0, n, 0);
    open_answer(l, path_nos.len())
}
