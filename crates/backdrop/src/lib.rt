// backdrop.rs: running sums of the backdrops along the tile rows of each path. docs/RULES.md,
// refusals 1 to 4 and 11. A path is checked as a whole before its first tile is written.
#![tactic(auto)]

ghost use Rattle.std.specs.Prelude.{◌≡◌, length};
ghost use Rattle.panel.specs.Paths.{path_count, paths_answer};
ghost use Rattle.panel.specs.Answer.{Done, answer_told};
ghost use Rattle.backdrop.specs.Backdrop.{out_of, sum_paths, BackdropMet};

use panel::checks::check_paths;
use panel::kinds::Refused;
use panel::paths::path_at;
use panel::refusals::Refusal;
use panel::widths::PATH_WORDS;

mod rows;

// The paths, n of them and checked, in order, up to the first whose sums leave i32.
fn sum_paths(paths: &[u32], n: u32, backdrops: &mut [i32]) -> Result<(), Refused>
    requires { (n ≡ path_count paths.now) × (paths_answer paths.now (length backdrops.old) ≡ Done) }
    ensures { out_of (answer_told result) backdrops.new ≡ sum_paths paths.now n 0 backdrops.old }
{
    for k in 0..n {
        let p = path_at(paths, k);
        if !rows::path_fits(p, backdrops) {
            return Err(Refusal::SumOver.at(k));
        }
        rows::sum_path(p, backdrops);
    }
    Ok(())
}

// What `backdrop` does once its checks have passed.
pub fn backdrop_checked(paths: &[u32], backdrops: &mut [i32]) -> Result<(), Refused>
    requires { paths_answer paths.now (length backdrops.old) ≡ Done }
    ensures { BackdropMet paths.now backdrops.old (answer_told result) backdrops.new }
{
    sum_paths(paths, (paths.len() / PATH_WORDS) as u32, backdrops)
}

pub fn backdrop(paths: &[u32], backdrops: &mut [i32]) -> Result<(), Refused>
    ensures { BackdropMet paths.now backdrops.old (answer_told result) backdrops.new }
{
    check_paths(paths, backdrops.len())?;
    backdrop_checked(paths, backdrops)
}
