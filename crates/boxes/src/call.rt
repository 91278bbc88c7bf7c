// The public call, which asks nothing of its caller.
ghost use Rattle.std.specs.Prelude.{◌≡◌, map, ◌*◌, ◌≤◌, length};
ghost use Rattle.boxes.specs.Boxed.{boxed_told};
ghost use Rattle.boxes.specs.Boxes.{BoxesMet};

use super::checks::check_lent;
use box_records::edges::total;
use box_records::records::put_records;
use end_tiles::check_lines;
use panel::kinds::Refused;
use panel::limits::MOST_TILES;
use panel::refusals::Refusal;
use path_reach::{BOX_WORDS, gather};
use ranges::clear;

// The records of the paths, from their lines. The working room is cleared afterwards, so far as it is
// asked for. Answered is the number of tiles that the boxes take in all; a refusal's item is the line's
// number, for 3 the path's.
pub fn make_boxes(
    path_nos: &[u32],
    coords: &[f32],
    beams: &[u32],
    margin: u32,
    paths: &mut [u32],
    work: &mut [u32],
) -> Result<u32, Refused>
    ensures { BoxesMet path_nos.now coords.now beams.now margin paths.old work.old (boxed_told result)
        paths.new work.new }
{
    check_lent(
        path_nos.len(),
        coords.len(),
        paths.len(),
        beams.len(),
        work.len(),
    )?;
    let n = beams.len() as u32;
    check_lines(path_nos, coords, n)?;
    let words = beams.len() * BOX_WORDS;
    clear(work, 0, words, 0);
    gather(path_nos, coords, n, work);
    let tiles = total(work, n, margin);
    if tiles > MOST_TILES as u64 {
        clear(work, 0, words, 0);
        return Err(Refusal::TooMany.at(0));
    }
    put_records(work, beams, n, margin, paths);
    clear(work, 0, words, 0);
    Ok(tiles as u32)
}
