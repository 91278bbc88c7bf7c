// A paint as it is lent, one for each path: its colour and its fill rule.
ghost use Rattle.std.specs.Prelude.{◌≡◌, ◌+◌, ◌*◌, ◌≤◌, length};
ghost use Rattle.panel.specs.Widths.{paint_words};
ghost use Rattle.panel.specs.Paints.{paint_at, put_paint};

use super::widths::{PAINT_COLOUR, PAINT_RULE, PAINT_WORDS};

#[derive(Clone, Copy)]
pub struct Paint {
    pub colour: u32,
    pub rule: u32,
}

// The paint of a path that is there.
pub fn paint_at(paints: &[u32], p: u32) -> Paint
    requires { p * paint_words + paint_words ≤ length paints.now }
    ensures { result ≡ paint_at paints.now p }
{
    let k = (p as usize) * PAINT_WORDS;
    let colour = paints[k + PAINT_COLOUR];
    let rule = paints[k + PAINT_RULE];
    Paint { colour, rule }
}

// A paint into its place.
pub fn put_paint(paints: &mut [u32], p: u32, paint: Paint)
    requires { p * paint_words + paint_words ≤ length paints.old }
    ensures { paints.new ≡ put_paint p paint paints.old }
{
    let k = (p as usize) * PAINT_WORDS;
    paints[k + PAINT_COLOUR] = paint.colour;
    paints[k + PAINT_RULE] = paint.rule;
}
