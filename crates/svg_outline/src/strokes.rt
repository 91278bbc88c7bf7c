// What a group of numbers draws, written as lines.
ghost use Rattle.std.specs.Prelude.{◌≡◌, true, false, ◌+◌, ◌≤◌, length};
ghost use Rattle.std.proofs.lemmas.List.Edits.{sets};
ghost use Rattle.panel.specs.Widths.{line_floats};
ghost use Rattle.curve.specs.Halves.{line_of};
ghost use Rattle.svg_outline.specs.Outline.{placed, depth_most};
ghost use Rattle.svg_outline.specs.Strokes.{hand_to, held_of, lines_at, stroke_of, shut_lines, turn_lines, turn_hand, origin_of};

use crate::steps::{Gait, Kind, relative};
use curve::{Curve, halve, put};
use decimal::thousandths;
use svg_tokens::Token;

// Where the pen stands, where its outline began, the last four numbers, and the place of the next line.
#[derive(Clone, Copy)]
pub struct Hand {
    pub x: f32,
    pub y: f32,
    pub x0: f32,
    pub y0: f32,
    pub a: f32,
    pub b: f32,
    pub c: f32,
    pub e: f32,
    pub at: usize,
}

// A number, or the distance to it.
#[tactic(auto, unfolding(crate::specs::Outline::placed))]
fn place_of(rel: bool, base: f32, v: f32) -> f32
    ensures { result ≡ placed rel base v }
{
    if rel { base + v } else { v }
}

impl Hand {
    pub fn origin() -> Hand
        ensures { result ≡ origin_of }
    {
        Hand {
            x: 0.0,
            y: 0.0,
            x0: 0.0,
            y0: 0.0,
            a: 0.0,
            b: 0.0,
            c: 0.0,
            e: 0.0,
            at: 0,
        }
    }

    // A number joins the last four.
    #[tactic(auto, unfolding(crate::specs::Strokes::held_of))]
    fn held(self, t: Token) -> Hand
        ensures { result ≡ held_of self t }
    {
        match t {
            Token::End(_) | Token::Letter(_, _) => self,
            Token::Value(minus, n, _) => Hand {
                a: self.b,
                b: self.c,
                c: self.e,
                e: thousandths(minus, n),
                ..self
            },
        }
    }

    // The pen at a point, its outline's start at another, and the next line's place.
    fn moved(self, x: f32, y: f32, x0: f32, y0: f32, at: usize) -> Hand
        ensures { result ≡ hand_to self x y x0 y0 at }
    {
        Hand {
            x,
            y,
            x0,
            y0,
            at,
            ..self
        }
    }

    // A line from the pen to a point.
    fn line_to(self, x: f32, y: f32, out: &mut [f32]) -> Hand
        requires { self.at + line_floats ≤ length out.old }
        ensures { (result ≡ hand_to self x y self.x0 self.y0 (self.at + line_floats)) × (out.new ≡ sets out.old self.at (line_of self.x self.y x y)) }
    {
        let at = put(self.x, self.y, x, y, out, self.at);
        self.moved(x, y, self.x0, self.y0, at)
    }

    // The line back to the start, of an outline that has drawn; the place after it.
    fn shut(self, drawn: bool, out: &mut [f32]) -> usize
        requires { self.at + length (shut_lines drawn self) ≤ length out.old }
        ensures { (result ≡ self.at + length (shut_lines drawn self)) × (out.new ≡ sets out.old self.at (shut_lines drawn self)) }
    {
        if drawn {
            return put(self.x, self.y, self.x0, self.y0, out, self.at);
        }
        self.at
    }

    // A move: the outline before it is closed, and one begins.
    fn move_to(self, rel: bool, drawn: bool, out: &mut [f32]) -> Hand
        requires { self.at + length (shut_lines drawn self) ≤ length out.old }
        ensures { (result ≡ stroke_of Kind.Move rel drawn 0 self) × (out.new ≡ sets out.old self.at (lines_at Kind.Move rel drawn 0 self)) }
    {
        let at = self.shut(drawn, out);
        let x = place_of(rel, self.x, self.c);
        let y = place_of(rel, self.y, self.e);
        self.moved(x, y, x, y, at)
    }

    // A curve: both its points count from its start.
    fn curve_to(self, rel: bool, depth: u32, out: &mut [f32]) -> Hand
        requires { self.at + length (lines_at Kind.Curved rel false depth self) ≤ length out.old }
        ensures { (result ≡ stroke_of Kind.Curved rel false depth self) × (out.new ≡ sets out.old self.at (lines_at Kind.Curved rel false depth self)) }
    {
        let x1 = place_of(rel, self.x, self.a);
        let y1 = place_of(rel, self.y, self.b);
        let x2 = place_of(rel, self.x, self.c);
        let y2 = place_of(rel, self.y, self.e);
        let q = Curve {
            x0: self.x,
            y0: self.y,
            x1,
            y1,
            x2,
            y2,
        };
        let at = halve(q, depth, out, self.at);
        self.moved(x2, y2, self.x0, self.y0, at)
    }

    // A group of numbers, or Z.
    fn draw(self, k: Kind, rel: bool, drawn: bool, depth: u32, out: &mut [f32]) -> Hand
        requires { self.at + length (lines_at k rel drawn depth self) ≤ length out.old }
        ensures { (result ≡ stroke_of k rel drawn depth self) × (out.new ≡ sets out.old self.at (lines_at k rel drawn depth self)) }
    {
        match k {
            Kind::Rest => self,
            Kind::Move => self.move_to(rel, drawn, out),
            Kind::Line => self.line_to(
                place_of(rel, self.x, self.c),
                place_of(rel, self.y, self.e),
                out,
            ),
            Kind::Across => self.line_to(place_of(rel, self.x, self.e), self.y, out),
            Kind::Upright => self.line_to(self.x, place_of(rel, self.y, self.e), out),
            Kind::Curved => self.curve_to(rel, depth, out),
            Kind::Close => self.line_to(self.x0, self.y0, out),
        }
    }

    // A token.
    pub fn turn(self, g: Gait, t: Token, depth: u32, out: &mut [f32]) -> Hand
        requires { self.at + length (turn_lines depth g self t) ≤ length out.old }
        ensures { (result ≡ turn_hand depth g self t) × (out.new ≡ sets out.old self.at (turn_lines depth g self t)) }
    {
        let k = g.act(t);
        let next = self.held(t);
        next.draw(k, relative(g.letter), g.drawn, depth, out)
    }

    // The text's end closes an outline that has drawn.
    pub fn finish(self, g: Gait, out: &mut [f32])
        requires { self.at + length (shut_lines g.drawn self) ≤ length out.old }
        ensures { out.new ≡ sets out.old self.at (shut_lines g.drawn self) }
    {
        self.shut(g.drawn, out);
    }
}
