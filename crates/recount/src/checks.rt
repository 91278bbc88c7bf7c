// What is checked before anything is changed: docs/RULES.md, "A recount".
ghost use Rattle.std.specs.Prelude.{◌≡◌};
ghost use Rattle.panel.specs.Checks.{first_no};
ghost use Rattle.panel.specs.Paths.{paths_answer};
ghost use Rattle.panel.specs.Answer.{answer_told, Done};
ghost use Rattle.panel.specs.Verdict.{verdict_told};
ghost use Rattle.recount.specs.Recount.{lent_checks, range_checks, asked_of};

use kept_range::tiles_in;
use panel::checks::check_paths;
use panel::kinds::Refused;
use panel::paths::path_at;
use panel::refusals::Refusal;
use panel::widths::{LINE_FLOATS, PATH_WORDS, REF_WORDS};

// Check 1 of the lengths that need no path.
fn check_lent(
    nl: usize,
    nn: usize,
    nc: usize,
    nb: usize,
    nt: usize,
    nr: usize,
) -> Result<(), Refusal>
    ensures { verdict_told result ≡ first_no (lent_checks nl nn nc nb nt nr) }
{
    if nc % LINE_FLOATS != 0 {
        return Err(Refusal::NotWhole);
    }
    if nn != nc / LINE_FLOATS {
        return Err(Refusal::NotWhole);
    }
    if nl != nc / LINE_FLOATS {
        return Err(Refusal::NotWhole);
    }
    if nb != nt {
        return Err(Refusal::NotWhole);
    }
    if nr % REF_WORDS != 0 {
        return Err(Refusal::NotWhole);
    }
    Ok(())
}

// The path named is there, and each kept slice is as long as its range.
fn check_range(path: u32, paths: &[u32], tiles: usize, kb: usize, kc: usize) -> Result<(), Refusal>
    requires { paths_answer paths.now tiles ≡ Done }
    ensures { verdict_told result ≡ first_no (range_checks path paths.now kb kc) }
{
    if (path as usize) >= paths.len() / PATH_WORDS {
        return Err(Refusal::NoSuch);
    }
    let n = tiles_in(path_at(paths, path));
    if kb != n {
        return Err(Refusal::NotWhole);
    }
    if kc != n {
        return Err(Refusal::NotWhole);
    }
    Ok(())
}

// All of it, in order.
pub(crate) fn asked(
    path: u32,
    paths: &[u32],
    nl: usize,
    nn: usize,
    nc: usize,
    nb: usize,
    nt: usize,
    nr: usize,
    kb: usize,
    kc: usize,
) -> Result<(), Refused>
    ensures { answer_told result ≡ asked_of path paths.now nl nn nc nb nt nr kb kc }
{
    check_lent(nl, nn, nc, nb, nt, nr)?;
    check_paths(paths, nt)?;
    check_range(path, paths, nt, kb, kc)?;
    Ok(())
}
