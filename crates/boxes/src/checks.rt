// What is checked first: the lengths lent.
ghost use Rattle.std.specs.Prelude.{◌≡◌};
ghost use Rattle.panel.specs.Checks.{first_no};
ghost use Rattle.panel.specs.Verdict.{verdict_told};
ghost use Rattle.boxes.specs.Boxes.{lent_checks};

use panel::limits::MOST_PATHS;
use panel::refusals::Refusal;
use panel::widths::{LINE_FLOATS, PATH_WORDS};
use path_reach::BOX_WORDS;

// The lengths lent: path numbers, coordinates, words of paths, beam numbers, words of working room.
pub fn check_lent(nn: usize, nc: usize, np: usize, nb: usize, nw: usize) -> Result<(), Refusal>
    ensures { verdict_told result ≡ first_no (lent_checks nn nc np nb nw) }
{
    if nc % LINE_FLOATS != 0 {
        return Err(Refusal::NotWhole);
    }
    if nn != nc / LINE_FLOATS {
        return Err(Refusal::NotWhole);
    }
    if np % PATH_WORDS != 0 {
        return Err(Refusal::NotWhole);
    }
    if nb != np / PATH_WORDS {
        return Err(Refusal::NotWhole);
    }
    if nb > MOST_PATHS as usize {
        return Err(Refusal::TooMany);
    }
    if nw / BOX_WORDS < nb {
        return Err(Refusal::NoRoom);
    }
    Ok(())
}
