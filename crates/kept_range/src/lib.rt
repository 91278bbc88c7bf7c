// The range of the path counted again: its tiles are kept and zeroed, its new lines are counted into them, and where one is
// refused they get back what they held.
#![tactic(auto)]

ghost use Rattle.std.specs.Prelude.{◌≡◌, ◌*◌, ◌≤◌, ◌<◌, length};
ghost use Rattle.panel.specs.Paths.{path_at, path_count};
ghost use Rattle.panel.specs.Widths.{line_floats};
ghost use Rattle.walked_lines.specs.Line.{Lent};
ghost use Rattle.new_lines.specs.Recounted.{recounted_told};
ghost use Rattle.kept_range.specs.Kept.{tiles_in, out_of, redrawn_of};

use new_lines::{RecountRefused, count_lines};
use panel::kinds::Path;
use panel::paths::path_at;
use ranges::{clear, copy};

// How many tiles a path has whose box is in order.
pub fn tiles_in(p: Path) -> usize
    requires { (p.x0 ≤ p.x1) × (p.y0 ≤ p.y1) }
    ensures { result ≡ tiles_in p }
{
    ((p.x1 - p.x0) as usize) * ((p.y1 - p.y0) as usize)
}

// The range is kept and zeroed, and the lines are counted; where one is refused, the range gets back
// what it held.
pub fn redraw(
    path: u32,
    line_nos: &[u32],
    path_nos: &[u32],
    coords: &[f32],
    paths: &[u32],
    backdrops: &mut [i32],
    counts: &mut [u32],
    refs: &mut [u32],
    kept_backdrops: &mut [i32],
    kept_counts: &mut [u32],
) -> Result<u32, RecountRefused>
    requires { Lent paths.now (length backdrops.old) (length counts.old) × (path < path_count paths.now)
        × (length line_nos.now ≡ length path_nos.now) × (length path_nos.now * line_floats ≤ length coords.now)
        × (length kept_backdrops.old ≡ tiles_in (path_at paths.now path)) × (length kept_counts.old ≡ tiles_in (path_at paths.now path)) }
    ensures { out_of (recounted_told result) backdrops.new counts.new refs.new kept_backdrops.new kept_counts.new
        ≡ redrawn_of path line_nos.now path_nos.now coords.now paths.now backdrops.old counts.old refs.old
        kept_backdrops.old kept_counts.old }
{
    let b = path_at(paths, path);
    let first = b.first as usize;
    let n = tiles_in(b);
    copy(backdrops, first, kept_backdrops, 0, n);
    copy(counts, first, kept_counts, 0, n);
    clear(backdrops, first, n, 0);
    clear(counts, first, n, 0);
    let r = count_lines(
        path, line_nos, path_nos, coords, paths, backdrops, counts, refs,
    );
    if r.is_err() {
        copy(kept_backdrops, 0, backdrops, first, n);
        copy(kept_counts, 0, counts, first, n);
    }
    r
}
