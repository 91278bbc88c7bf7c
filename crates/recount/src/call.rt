// The public call, which asks nothing of its caller.
ghost use Rattle.new_lines.specs.Recounted.{recounted_told};
ghost use Rattle.recount.specs.Recount.{RecountMet};

use super::checks::asked;
use kept_range::redraw;
use new_lines::RecountRefused;

// Counts the lines lent again for one path, into its own tiles alone.
pub fn recount(
    path: u32,
    line_nos: &[u32],
    path_nos: &[u32],
    coords: &[f32],
    paths: &[u32],
    backdrops: &mut [i32],
    counts: &mut [u32],
    refs: &mut [u32],
    kept_backdrops: &mut [i32],
    kept_counts: &mut [u32],
) -> Result<u32, RecountRefused>
    ensures { RecountMet path line_nos.now path_nos.now coords.now paths.now backdrops.old counts.old refs.old
        kept_backdrops.old kept_counts.old
        (recounted_told result) backdrops.new counts.new refs.new kept_backdrops.new kept_counts.new }
{
    asked(
        path,
        paths,
        line_nos.len(),
        path_nos.len(),
        coords.len(),
        backdrops.len(),
        counts.len(),
        refs.len(),
        kept_backdrops.len(),
        kept_counts.len(),
    )?;
    redraw(
        path,
        line_nos,
        path_nos,
        coords,
        paths,
        backdrops,
        counts,
        refs,
        kept_backdrops,
        kept_counts,
    )
}
