// What a token does: the group of numbers that it ends, and where the reading stands after it. Counting
// and writing share this.
ghost use Rattle.std.specs.Prelude.{◌≡◌, ◌≤◌};
ghost use Rattle.svg_outline.specs.Outline.{kind_of, relative_of, depth_most};
ghost use Rattle.svg_outline.specs.Tokens.{size_of, later_of, act_of, gait_of, many_of, start_of};

use svg_path::{axis, close, movement, pair, quad};
use svg_tokens::Token;

// How often a curve is halved, at the most.
pub const DEPTH_MOST: u32 = 6;

// What a group of numbers draws; Rest: nothing.
#[derive(Clone, Copy)]
pub enum Kind {
    Rest,
    Move,
    Line,
    Across,
    Upright,
    Curved,
    Close,
}

// The letter in force, how many numbers its group still needs, and whether the outline has drawn.
#[derive(Clone, Copy)]
pub struct Gait {
    pub letter: u8,
    pub need: u8,
    pub drawn: bool,
}

pub fn depth_most() -> u32
    ensures { result ≡ depth_most }
{
    DEPTH_MOST
}

// A letter that is small counts from the current point.
#[tactic(auto, unfolding(crate::specs::Outline::relative_of))]
pub fn relative(c: u8) -> bool
    ensures { result ≡ relative_of c }
{
    b'a' <= c
}

// What a group of a letter's numbers draws. By `svg_path`'s tests: letters alone make a table, and `act` a call for each token.
#[tactic(auto, using(std::proofs::lemmas::Bool::Decides::nat_tests), unfolding(crate::specs::Outline::kind_of))]
fn kind_at(c: u8) -> Kind
    ensures { result ≡ kind_of c }
{
    match c {
        _ if movement(c) => Kind::Move,
        b'L' | b'l' => Kind::Line,
        b'H' | b'h' => Kind::Across,
        b'V' | b'v' => Kind::Upright,
        _ if quad(c) => Kind::Curved,
        _ if close(c) => Kind::Close,
        _ => Kind::Rest,
    }
}

// How many numbers a letter's group has.
#[tactic(auto, using(std::proofs::lemmas::Bool::Decides::nat_tests), unfolding(crate::specs::Tokens::size_of))]
fn size(c: u8) -> u8
    ensures { result ≡ size_of c }
{
    if pair(c) {
        2
    } else if axis(c) {
        1
    } else if quad(c) {
        4
    } else {
        0
    }
}

// The letter that goes on after a group: a move's further pairs are lines.
#[tactic(auto, using(std::proofs::lemmas::Bool::Decides::nat_tests), unfolding(crate::specs::Tokens::later_of))]
fn later(c: u8) -> u8
    ensures { result ≡ later_of c }
{
    match c {
        b'M' => b'L',
        b'm' => b'l',
        _ => c,
    }
}

impl Gait {
    // Before the first letter.
    pub fn start() -> Gait
        ensures { result ≡ start_of }
    {
        Gait {
            letter: 0,
            need: 0,
            drawn: false,
        }
    }

    // What a token draws: Z at once, a number where it ends its group.
    #[tactic(auto, using(std::proofs::lemmas::Bool::Decides::nat_tests), unfolding(crate::specs::Tokens::act_of))]
    pub fn act(self, t: Token) -> Kind
        ensures { result ≡ act_of self t }
    {
        match t {
            Token::End(_) => Kind::Rest,
            Token::Letter(c, _) => { if close(c) { Kind::Close } else { Kind::Rest } }
            Token::Value(_, _, _) => {
                if self.need <= 1 {
                    kind_at(self.letter)
                } else {
                    Kind::Rest
                }
            }
        }
    }

    // Where the reading stands after a token.
    #[tactic(auto, using(std::proofs::lemmas::Bool::Decides::nat_tests), unfolding(crate::specs::Tokens::gait_of))]
    pub fn pass(self, t: Token) -> Gait
        ensures { result ≡ gait_of self t }
    {
        match t {
            Token::End(_) => self,
            Token::Letter(c, _) => Gait {
                letter: c,
                need: size(c),
                drawn: self.drawn & !close(c),
            },
            Token::Value(_, _, _) => {
                if self.need <= 1 {
                    Gait {
                        letter: later(self.letter),
                        need: size(self.letter),
                        drawn: !movement(self.letter),
                    }
                } else {
                    Gait {
                        need: self.need - 1,
                        ..self
                    }
                }
            }
        }
    }
}

impl Kind {
    // How many lines are drawn.
    pub fn many(self, drawn: bool, depth: u32) -> usize
        requires { depth ≤ depth_most }
        ensures { result ≡ many_of self drawn depth }
    {
        match self {
            Kind::Rest => 0,
            Kind::Move => usize::from(drawn),
            Kind::Line | Kind::Across | Kind::Upright => 1,
            Kind::Curved => 1usize << depth,
            Kind::Close => 1,
        }
    }
}
