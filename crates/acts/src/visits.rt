// Visits: a tile's count, and the reference that a step makes.
ghost use Rattle.std.specs.Prelude.{◌≡◌, ◌+◌, ◌*◌, ◌<◌, ◌≤◌, length, get_or, set};
ghost use Rattle.panel.specs.Limits.{most_count, most_slots};
ghost use Rattle.panel.specs.Widths.{ref_words, step_range};
ghost use Rattle.panel.specs.Refs.{packed, put_ref};

use panel::kinds::{LineNo, TileNo};
use panel::refs::{pack, put_ref};

// Step i of a line on a tile, as reference number at.
pub fn visit(tile: TileNo, line: LineNo, i: u32, at: u32, counts: &mut [u32], refs: &mut [u32])
    requires { (tile.0 < length counts.old) × (ref_words * at + ref_words ≤ length refs.old) × (get_or counts.old tile.0 0 < most_count) × (i < step_range) × (at < most_slots) }
    ensures { (counts.new ≡ set counts.old tile.0 (get_or counts.old tile.0 0 + 1))
        × (refs.new ≡ put_ref at line.0 (packed (get_or counts.old tile.0 0) i) refs.old) }
{
    let t = tile.0 as usize;
    let n = counts[t];
    counts[t] = n + 1;
    let word = pack(n, i);
    put_ref(refs, at, line.0, word);
}
