// What is checked before anything is looked at, and the public call, which asks nothing of its caller.
ghost use Rattle.std.specs.Prelude.{◌≡◌, ℕ, ◌+◌, ◌*◌, ◌/◌, ◌≤◌, ◌<◌, length, leb};
ghost use Rattle.panel.specs.Widths.{line_floats, ref_words};
ghost use Rattle.panel.specs.Checks.{first_no};
ghost use Rattle.panel.specs.Paths.{paths_answer};
ghost use Rattle.panel.specs.Verdict.{verdict_told};
ghost use Rattle.panel.specs.Answer.{Done, answer_told};
ghost use Rattle.tile_check.specs.Checked.{checked_told};
ghost use Rattle.tile_check.specs.Tables.{lent_checks, work_words, asked_of, looked_of, CheckMet};

use super::kinds::Fault;
use super::tables::look;
use own_count::own_count;
use panel::checks::check_paths;
use panel::kinds::Refused;
use panel::refusals::Refusal;
use panel::widths::{LINE_FLOATS, REF_WORDS};
use ranges::clear;

// Words of working room for each tile, line and reference.
const WORDS_EACH: usize = 4;

// Check 1 of the lengths lent.
fn check_lent(
    nn: usize,
    nc: usize,
    nr: usize,
    nt: usize,
    nb: usize,
    ns: usize,
) -> Result<(), Refusal>
    ensures { verdict_told result ≡ first_no (lent_checks nn nc nr nt nb ns) }
{
    if nc % LINE_FLOATS != 0 {
        return Err(Refusal::NotWhole);
    }
    if nn != nc / LINE_FLOATS {
        return Err(Refusal::NotWhole);
    }
    if nr % REF_WORDS != 0 {
        return Err(Refusal::NotWhole);
    }
    if nb != nt {
        return Err(Refusal::NotWhole);
    }
    if ns != nt {
        return Err(Refusal::NotWhole);
    }
    Ok(())
}

// Whether the working room is large enough: no sum is made, so none can wrap.
fn has_room(tiles: usize, lines: usize, refs: usize, words: usize) -> bool
    ensures { result ≡ leb (work_words tiles lines refs) words }
{
    let room = words / WORDS_EACH;
    if room < tiles {
        return false;
    }
    let left = room - tiles;
    if left < lines {
        return false;
    }
    refs <= left - lines
}

// All of it, in order.
fn asked(
    paths: &[u32],
    nn: usize,
    nc: usize,
    nr: usize,
    nt: usize,
    nb: usize,
    ns: usize,
    nw: usize,
) -> Result<(), Refused>
    ensures { answer_told result ≡ asked_of paths.now nn nc nr nt nb ns nw }
{
    check_lent(nn, nc, nr, nt, nb, ns)?;
    check_paths(paths, nt)?;
    if has_room(nt, nn, nr / REF_WORDS, nw) {
        Ok(())
    } else {
        Err(Refusal::NoRoom.at(0))
    }
}

// Our own count, then the tables.
fn looked(
    path_nos: &[u32],
    coords: &[f32],
    paths: &[u32],
    refs: &[u32],
    counts: &[u32],
    backs: &[i32],
    stored: &[u32],
    room: u32,
    work: &mut [u32],
) -> Result<Option<Fault>, Refused>
    requires { (paths_answer paths.now (length counts.now) ≡ Done) × (length path_nos.now * line_floats ≤ length coords.now)
        × (length backs.now ≡ length counts.now) × (length stored.now ≡ length counts.now)
        × (length work.old ≡ work_words (length counts.now) (length path_nos.now) (length refs.now / ref_words)) }
    ensures { checked_told result ≡ looked_of path_nos.now coords.now paths.now refs.now
        counts.now backs.now stored.now room }
{
    let made = own_count(path_nos, coords, paths, counts.len(), work)?;
    Ok(look(
        path_nos, coords, paths, refs, counts, backs, stored, room, work, made,
    ))
}

// Whether another's tables are as good as our own count of the lines; if not, the first entry at
// fault. A refusal's item is the path's number or the line's. The working room is cleared afterwards, so far as it is asked for.
pub fn check_tiles(
    path_nos: &[u32],
    coords: &[f32],
    paths: &[u32],
    refs: &[u32],
    counts: &[u32],
    backs: &[i32],
    stored: &[u32],
    room: u32,
    work: &mut [u32],
) -> Result<Option<Fault>, Refused>
    ensures { CheckMet path_nos.now coords.now paths.now refs.now counts.now backs.now stored.now room
        work.old (checked_told result) work.new }
{
    asked(
        paths,
        path_nos.len(),
        coords.len(),
        refs.len(),
        counts.len(),
        backs.len(),
        stored.len(),
        work.len(),
    )?;
    let n = WORDS_EACH * (counts.len() + path_nos.len() + refs.len() / REF_WORDS);
    let r = looked(
        path_nos,
        coords,
        paths,
        refs,
        counts,
        backs,
        stored,
        room,
        &mut work[..n],
    );
    clear(work, 0, n, 0);
    r
}
