// The lines of a text, written from the first place on.
ghost use Rattle.std.specs.Prelude.{◌≡◌, ◌≤◌, length};
ghost use Rattle.std.proofs.lemmas.List.Edits.{sets};
ghost use Rattle.svg_outline.specs.Strokes.{text_lines};

use crate::steps::Gait;
use crate::strokes::Hand;
use svg_tokens::next;

pub fn write(s: &[u8], depth: u32, out: &mut [f32])
    requires { length (text_lines depth s.now) ≤ length out.old }
    ensures { out.new ≡ sets out.old 0 (text_lines depth s.now) }
{
    let mut g = Gait::start();
    let mut h = Hand::origin();
    let mut i: usize = 0;
    // a token's own length moves the place
    while i < s.len() {
        let t = next(s, i);
        h = h.turn(g, t, depth, out);
        g = g.pass(t);
        i = t.place();
    }
    h.finish(g, out);
}
