// How many lines a text draws, found before any is written.
ghost use Rattle.std.specs.Prelude.{◌≡◌, ◌≤◌, ◌<◌, length};
ghost use Rattle.svg_outline.specs.Outline.{depth_most};
ghost use Rattle.svg_outline.specs.Counts.{text_count, sum_of, room_most};

use crate::steps::{Gait, Kind};
use svg_tokens::next;

// The number of lines, where there is room for them.
pub fn count(s: &[u8], depth: u32, room: usize) -> Option<usize>
    requires { (depth ≤ depth_most) × (room ≤ room_most) }
    ensures { result ≡ sum_of room (text_count depth s.now) }
{
    let mut g = Gait::start();
    let mut n: usize = 0;
    let mut i: usize = 0;
    // a token's own length moves the place
    while i < s.len() {
        let t = next(s, i);
        n += g.act(t).many(g.drawn, depth);
        if room < n {
            return None;
        }
        g = g.pass(t);
        i = t.place();
    }
    n += Kind::Move.many(g.drawn, depth);
    if room < n {
        return None;
    }
    Some(n)
}
