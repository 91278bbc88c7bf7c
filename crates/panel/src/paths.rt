// A path as it is lent: its words, read and written. docs/RULES.md, "How the records are lent".
ghost use Rattle.std.specs.Prelude.{◌≡◌, ◌+◌, ◌*◌, ◌≤◌, length};
ghost use Rattle.panel.specs.Widths.{path_words};
ghost use Rattle.panel.specs.Paths.{path_at, beam_at, put_path};

use super::kinds::Path;
use super::widths::{PATH_BEAM, PATH_FIRST, PATH_WORDS, PATH_X0, PATH_X1, PATH_Y0, PATH_Y1};

// The record of a path that is there.
pub fn path_at(paths: &[u32], k: u32) -> Path
    requires { k * path_words + path_words ≤ length paths.now }
    ensures { result ≡ path_at paths.now k }
{
    let at = (k as usize) * PATH_WORDS;
    let x0 = paths[at + PATH_X0];
    let y0 = paths[at + PATH_Y0];
    let x1 = paths[at + PATH_X1];
    let y1 = paths[at + PATH_Y1];
    let first = paths[at + PATH_FIRST];
    Path {
        x0,
        y0,
        x1,
        y1,
        first,
    }
}

// Its beam number.
pub fn beam_at(paths: &[u32], k: u32) -> u32
    requires { k * path_words + path_words ≤ length paths.now }
    ensures { result ≡ beam_at paths.now k }
{
    let at = (k as usize) * PATH_WORDS;
    let word = paths[at + PATH_BEAM];
    word
}

// A path into its place, with its beam number.
pub fn put_path(paths: &mut [u32], k: u32, p: Path, beam: u32)
    requires { k * path_words + path_words ≤ length paths.old }
    ensures { paths.new ≡ put_path k p beam paths.old }
{
    let at = (k as usize) * PATH_WORDS;
    paths[at + PATH_X0] = p.x0;
    paths[at + PATH_Y0] = p.y0;
    paths[at + PATH_X1] = p.x1;
    paths[at + PATH_Y1] = p.y1;
    paths[at + PATH_FIRST] = p.first;
    paths[at + PATH_BEAM] = beam;
}
