// Lines from the path data of SVG, written where counting reads them. docs/RULES.md, "Outlines from SVG".
// Which texts are path data is svg_path's specs/Grammar.antt, which lines they draw svg_outline's
// specs/Outline.antt, and what a call answers specs/Lines.antt.
#![tactic(auto)]

ghost use Rattle.std.specs.Prelude.{◌≡◌, ◌≤◌, ◌*◌, length, replicate};
ghost use Rattle.std.proofs.lemmas.List.Edits.{sets};
ghost use Rattle.panel.specs.Widths.{line_floats};
ghost use Rattle.svg_outline.specs.Outline.{depth_most};
ghost use Rattle.svg.specs.Answer.{answer_told};
ghost use Rattle.svg.specs.Lines.{paper_of, drawn_of, LinesMet, paired_of};

use panel::refusals::Refusal;
use panel::widths::LINE_FLOATS;
use svg_outline::count::count;
use svg_outline::steps::DEPTH_MOST;
use svg_outline::write::write;
use svg_path::check;

// Why a text is refused, and its place where it is the text's fault, 0 where it isn't.
#[derive(Clone, Copy, PartialEq, Eq)]
pub struct TextRefused {
    pub why: Refusal,
    pub at: usize,
}

impl From<Refusal> for TextRefused {
    ghost from_gives = { λ why r. r ≡ record { why = why; at = 0 } };

    fn from(why: Refusal) -> Self {
        TextRefused { why, at: 0 }
    }
}

// Whether there are four coordinates to each path number.
#[tactic(auto, unfolding(crate::specs::Lines::paired_of))]
fn paired(numbers: usize, floats: usize) -> bool
    ensures { result ≡ paired_of numbers floats }
{
    (floats % LINE_FLOATS == 0) & (floats / LINE_FLOATS == numbers)
}

// A text that is path data: counted, then written, each line with the path's number; how many lines it has.
fn drawn(
    text: &[u8],
    depth: u32,
    path: u32,
    paths: &mut [u32],
    coords: &mut [f32],
) -> Result<usize, TextRefused>
    requires { (depth ≤ depth_most) × (length coords.old ≡ line_floats * length paths.old) }
    ensures { record { answer = paper_of (answer_told result); paths = paths.new; coords = coords.new } ≡ drawn_of text.now depth path paths.old coords.old }
{
    let n = count(text, depth, paths.len()).ok_or(Refusal::NoRoom)?;
    write(text, depth, coords);
    paths[..n].fill(path);
    Ok(n)
}

// The lines of a text, from the first place on; how many they are.
pub fn lines(
    text: &[u8],
    depth: u32,
    path: u32,
    paths: &mut [u32],
    coords: &mut [f32],
) -> Result<usize, TextRefused>
    ensures { LinesMet text.now depth path paths.old coords.old (answer_told result) paths.new coords.new }
{
    if DEPTH_MOST < depth {
        return Err(Refusal::TooDeep.into());
    }
    if !paired(paths.len(), coords.len()) {
        return Err(Refusal::NotWhole.into());
    }
    if let Err(at) = check(text) {
        return Err(TextRefused {
            why: Refusal::BadText,
            at,
        });
    }
    drawn(text, depth, path, paths, coords)
}
