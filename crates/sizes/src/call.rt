// The public call, which asks nothing of its caller and writes nothing.
ghost use Rattle.std.specs.Prelude.{◌≡◌, length};
ghost use Rattle.panel.specs.Checks.{first_no};
ghost use Rattle.panel.specs.Verdict.{verdict_told};
ghost use Rattle.panel.specs.Answer.{answer_told};
ghost use Rattle.sizes.specs.Measured.{measured_told};
ghost use Rattle.sizes.specs.Sizes.{lent_checks, call_answer, SizesMet};

use crate::Room;
use crate::lines::size_lines;
use crate::paths::{tiles_of, words_of};
use panel::checks::check_paths;
use panel::kinds::Refused;
use panel::limits::MOST_TILES;
use panel::refusals::Refusal;
use panel::widths::{LINE_FLOATS, PATH_WORDS};

// The lengths lent: whole lines, a path number for each, whole paths (1); then the screen (2).
fn check_lent(nn: usize, nc: usize, np: usize, cols: u32, rows: u32) -> Result<(), Refusal>
    ensures { verdict_told result ≡ first_no (lent_checks nn nc np cols rows) }
{
    if nc % LINE_FLOATS != 0 {
        return Err(Refusal::NotWhole);
    }
    if nn != nc / LINE_FLOATS {
        return Err(Refusal::NotWhole);
    }
    if np % PATH_WORDS != 0 {
        return Err(Refusal::NotWhole);
    }
    if cols as u64 * rows as u64 > MOST_TILES as u64 {
        return Err(Refusal::TooMany);
    }
    Ok(())
}

// 1 to 4.
fn check_call(paths: &[u32], nn: usize, nc: usize, cols: u32, rows: u32) -> Result<(), Refused>
    ensures { answer_told result ≡ call_answer nn nc paths.now cols rows }
{
    check_lent(nn, nc, paths.len(), cols, rows)?;
    check_paths(paths, MOST_TILES as usize)
}

// Tiles, references and command words for a screen of cols times rows; a refusal's item is the path's number, or the line's.
pub fn sizes(
    path_nos: &[u32],
    coords: &[f32],
    paths: &[u32],
    cols: u32,
    rows: u32,
) -> Result<Room, Refused>
    ensures { SizesMet path_nos.now coords.now paths.now cols rows (measured_told result) }
{
    check_call(paths, path_nos.len(), coords.len(), cols, rows)?;
    let refs = size_lines(path_nos, coords, paths)?;
    let tiles = tiles_of(paths);
    let words = words_of(paths, cols, rows);
    Ok(Room { tiles, refs, words })
}
