// What is checked of the paths lent, before anything is changed: docs/RULES.md, refusals 1 to 4.
// The Rust takes its records as they are.
ghost use Rattle.std.specs.Prelude.{◌≡◌, ◌+◌, ◌*◌, ◌≤◌, length};
ghost use Rattle.panel.specs.Widths.{path_words};
ghost use Rattle.panel.specs.Checks.{first_no};
ghost use Rattle.panel.specs.Verdict.{verdict_told};
ghost use Rattle.panel.specs.Answer.{answer_told};
ghost use Rattle.panel.specs.Paths.{box_fits, end_of, path_checks, paths_from, lent_checks, paths_answer};

use super::kinds::{Path, Refused};
use super::limits::{EDGE_MOST, MOST_PATHS, MOST_TILES};
use super::paths::path_at;
use super::refusals::Refusal;
use super::widths::PATH_WORDS;

// Whether no edge is over the limit, and none is the wrong way round.
pub fn box_fits(p: Path) -> bool
    ensures { result ≡ box_fits p }
{
    (p.x0 <= EDGE_MOST)
        & (p.y0 <= EDGE_MOST)
        & (p.x1 <= EDGE_MOST)
        & (p.y1 <= EDGE_MOST)
        & (p.x0 <= p.x1)
        & (p.y0 <= p.y1)
}

// The first number past a path's tiles, in 64 bits: it can't wrap.
pub fn end_of(p: Path) -> u64
    requires { (p.x0 ≤ p.x1) × (p.y0 ≤ p.y1) }
    ensures { result ≡ end_of p }
{
    (p.first as u64) + ((p.x1 - p.x0) as u64) * ((p.y1 - p.y0) as u64)
}

// One path: its box, then its tiles, past those of the path before it and within the tiles lent.
fn check_path(p: Path, end: u64, tiles: usize) -> Result<(), Refusal>
    ensures { verdict_told result ≡ first_no (path_checks p end tiles) }
{
    if !box_fits(p) {
        return Err(Refusal::BadBox);
    }
    if (p.first as u64) < end {
        return Err(Refusal::BadRange);
    }
    if end_of(p) > tiles as u64 {
        return Err(Refusal::BadRange);
    }
    Ok(())
}

// The first n paths, in order.
fn check_each(paths: &[u32], n: u32, tiles: usize) -> Result<(), Refused>
    requires { n * path_words ≤ length paths.now }
    ensures { answer_told result ≡ paths_from paths.now tiles n 0 0 }
{
    let mut end: u64 = 0;
    for k in 0..n {
        let p = path_at(paths, k);
        if let Err(why) = check_path(p, end, tiles) {
            return Err(why.at(k));
        }
        end = end_of(p);
    }
    Ok(())
}

// Whether they are whole records, and neither they nor the tiles are too many.
fn check_lent(words: usize, tiles: usize) -> Result<(), Refusal>
    ensures { verdict_told result ≡ first_no (lent_checks words tiles) }
{
    if words % PATH_WORDS != 0 {
        return Err(Refusal::NotWhole);
    }
    if words / PATH_WORDS > MOST_PATHS as usize {
        return Err(Refusal::TooMany);
    }
    if tiles > MOST_TILES as usize {
        return Err(Refusal::TooMany);
    }
    Ok(())
}

// The paths lent with so many tiles: whole records (1), not too many (2), then path by path its
// box (3) and its tiles (4).
pub fn check_paths(paths: &[u32], tiles: usize) -> Result<(), Refused>
    ensures { answer_told result ≡ paths_answer paths.now tiles }
{
    check_lent(paths.len(), tiles)?;
    check_each(paths, (paths.len() / PATH_WORDS) as u32, tiles)
}
