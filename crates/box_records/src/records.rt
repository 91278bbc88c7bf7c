// The records, path after path: its box, the first tile past those of the path before it, its beam number.
ghost use Rattle.std.specs.Prelude.{◌≡◌, map, ◌*◌, ◌≤◌, length};
ghost use Rattle.std.proofs.lemmas.List.Edits.{sets};
ghost use Rattle.lists.specs.Sums.{sum, from};
ghost use Rattle.panel.specs.Limits.{most_tiles};
ghost use Rattle.panel.specs.Widths.{path_words};
ghost use Rattle.path_reach.specs.Room.{box_words};
ghost use Rattle.box_records.specs.Records.{area_of_word, records_from};
ghost use Rattle.box_records.specs.Told.{box_in};

use super::edges::{area, box_at};
use panel::paths::put_path;

pub fn put_records(work: &[u32], beams: &[u32], n: u32, m: u32, paths: &mut [u32])
    requires { (n * box_words ≤ length work.now) × (n ≤ length beams.now) × (n * path_words ≤ length paths.old)
        × (sum (map (λ k. area_of_word (box_in work.now m k 0)) (from 0 n)) ≤ most_tiles) }
    ensures { paths.new ≡ sets paths.old 0 (records_from (box_in work.now m) beams.now n 0 0) }
{
    let mut first: u32 = 0;
    for k in 0..n {
        let p = box_at(work, k, m, first);
        let beam = beams[k as usize];
        put_path(paths, k, p, beam);
        let tiles = area(p);
        first += tiles as u32;
    }
}
