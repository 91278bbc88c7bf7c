// path_tiling::tile: a segment, and its tag, for each reference of a range.
ghost use Rattle.panel.specs.Pieces.{pieces};
ghost use Rattle.looks.specs.Look.{lent};
ghost use Rattle.groatpocket.specs.Calls.{GpTileMet};

use panel::kinds::{item, number};

pub fn gp_tile(
    path_nos: &[u32],
    coords: &[f32],
    paths: &[u32],
    stored: &[u32],
    refs: &[u32],
    from: u32,
    to: u32,
    segments: &mut [f32],
    tags: &mut [u32],
    at: &mut u32,
) -> u32
    ensures { GpTileMet from to (lent path_nos.now coords.now paths.now stored.now refs.now)
        (pieces segments.old tags.old) result at.new (pieces segments.new tags.new) }
{
    let r = path_tiling::tile(
        from, to, path_nos, coords, paths, stored, refs, segments, tags,
    );
    *at = item(r);
    number(r)
}
