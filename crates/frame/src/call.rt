// The public call, which asks nothing of its caller.
ghost use Rattle.std.specs.Prelude.{◌≡◌};
ghost use Rattle.panel.specs.Checks.{first_no};
ghost use Rattle.panel.specs.Verdict.{verdict_told};
ghost use Rattle.panel.specs.Pieces.{pieces};
ghost use Rattle.frame.specs.Frame.{lent_checks, FrameMet};
ghost use Rattle.frame.specs.Framed.{framed_told};

use super::kinds::{FrameRefused, Stage};
use super::stages::draw;
use panel::checks::check_paths;
use panel::kinds::Running;
use panel::refusals::Refusal;
use panel::widths::{LINE_FLOATS, REF_WORDS, SEGMENT_FLOATS};

// Check 1 of the lengths lent, in the order of the parameters.
pub fn check_lent(
    nn: usize,
    nc: usize,
    nb: usize,
    nt: usize,
    nk: usize,
    nr: usize,
    ns: usize,
    ng: usize,
) -> Result<(), Refusal>
    ensures { verdict_told result ≡ first_no (lent_checks nn nc nb nt nk nr ns ng) }
{
    if nc % LINE_FLOATS != 0 {
        return Err(Refusal::NotWhole);
    }
    if nn != nc / LINE_FLOATS {
        return Err(Refusal::NotWhole);
    }
    if nb != nt {
        return Err(Refusal::NotWhole);
    }
    if nt != nk {
        return Err(Refusal::NotWhole);
    }
    if nr % REF_WORDS != 0 {
        return Err(Refusal::NotWhole);
    }
    if ns % SEGMENT_FLOATS != 0 {
        return Err(Refusal::NotWhole);
    }
    if ng != ns / SEGMENT_FLOATS {
        return Err(Refusal::NotWhole);
    }
    Ok(())
}

// A frame: its lines given by their path numbers and coordinates, its tiles by backdrops, counts and
// tally. The segments afterwards are fine's to paint; each has its tag beside it, the beam number of
// its path.
pub fn frame(
    path_nos: &[u32],
    coords: &[f32],
    paths: &[u32],
    backdrops: &mut [i32],
    stored: &mut [u32],
    tally: &mut [u32],
    refs: &mut [u32],
    segments: &mut [f32],
    tags: &mut [u32],
) -> Result<Running, FrameRefused>
    ensures { FrameMet path_nos.now coords.now paths.now backdrops.old stored.old
        tally.old refs.old (pieces segments.old tags.old)
        (framed_told result) backdrops.new stored.new tally.new refs.new (pieces segments.new tags.new) }
{
    let none = Running { lines: 0, refs: 0 };
    let lent = check_lent(
        path_nos.len(),
        coords.len(),
        backdrops.len(),
        stored.len(),
        tally.len(),
        refs.len(),
        segments.len(),
        tags.len(),
    );
    if let Err(why) = lent {
        return Err(Stage::Lent.refuses(why.at(0), none));
    }
    if let Err(refused) = check_paths(paths, stored.len()) {
        return Err(Stage::Lent.refuses(refused, none));
    }
    draw(
        path_nos, coords, paths, backdrops, stored, tally, refs, segments, tags,
    )
}
