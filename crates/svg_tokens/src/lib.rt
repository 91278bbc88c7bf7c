// The tokens of path data, one after another: letters, and numbers with their values. Which texts are
// path data is svg_path's to say; this reads any text, and goes over what is no token.
#![tactic(auto)]

ghost use Rattle.std.specs.Prelude.{◌≡◌, ◌+◌, ◌-◌, ◌*◌, ◌^◌, ◌≤◌, ◌<◌, length, drop};
ghost use Rattle.svg_path.specs.Chars.{whole_most, part_most};
ghost use Rattle.svg_tokens.specs.Run.{run_of};
ghost use Rattle.svg_tokens.specs.Tokens.{begins_of, signs_of, point_at, part_of, number_of, tokens_of, rest_of, place_of, Within};

use svg_path::{PART_MOST, WHOLE_MOST, digit, sign};

const POINT: u8 = b'.';

const MINUS: u8 = b'-';

// Bytes from here on are letters.
const LETTERS: u8 = b'A';

// The number that digits make, and how many they are.
#[derive(Clone, Copy)]
pub struct Run {
    pub n: u32,
    pub taken: usize,
}

// A number that was read: its sign, its size in thousandths, and how many bytes it takes.
#[derive(Clone, Copy)]
pub struct Number {
    pub minus: bool,
    pub n: u32,
    pub taken: usize,
}

// The next token, and the place after it; or the text's end.
#[derive(Clone, Copy)]
pub enum Token {
    End(usize),
    Letter(u8, usize),
    Value(bool, u32, usize),
}

impl Token {
    // The place after it.
    pub fn place(self) -> usize
        ensures { result ≡ place_of self }
    {
        match self {
            Token::End(i) | Token::Letter(_, i) | Token::Value(_, _, i) => i,
        }
    }
}

// The digits at the head of a text: as many as there are, up to a limit.
fn digits(s: &[u8], limit: usize) -> Run
    requires { limit ≤ whole_most }
    ensures { result ≡ run_of limit 0 0 s.now }
{
    let mut n: u32 = 0;
    let most = limit.min(s.len());
    for taken in 0..most {
        let c = s[taken];
        if !digit(c) {
            return Run { n, taken };
        }
        n = n * 10 + u32::from(c - b'0');
    }
    Run { n, taken: most }
}

// Digits after a point, as thousandths.
fn padded(n: u32, taken: usize) -> u32
    requires { (taken ≤ part_most) × (n < 1000000) }
    ensures { result ≡ n * 10 ^ (part_most - taken) }
{
    match taken {
        0 => n * 1000,
        1 => n * 100,
        2 => n * 10,
        _ => n,
    }
}

// How many bytes a number's sign takes.
#[tactic(auto, using(std::proofs::lemmas::Bool::Decides::nat_tests), unfolding(crate::specs::Tokens::signs_of))]
fn signs(c: u8) -> usize
    ensures { result ≡ signs_of c }
{
    usize::from(sign(c))
}

// Whether a point stands at the head of a text.
#[tactic(auto, using(std::proofs::lemmas::Bool::Decides::nat_tests), unfolding(crate::specs::Tokens::point_at))]
fn point_at(s: &[u8]) -> bool
    ensures { result ≡ point_at s.now }
{
    s.first().copied() == Some(POINT)
}

// Whether a number begins with this byte.
#[tactic(auto, using(std::proofs::lemmas::Bool::Decides::nat_tests), unfolding(crate::specs::Tokens::begins_of))]
fn begins(c: u8) -> bool
    ensures { result ≡ begins_of c }
{
    digit(c) | sign(c) | (c == POINT)
}

// A number of k bytes, which make n, and the digits after a point at the head of the text that follows
// them, if there is one.
fn part(s: &[u8], minus: bool, n: u32, k: usize) -> Number
    requires { (n < 1000000) × (k ≤ 1 + whole_most) }
    ensures { result ≡ part_of minus n k s.now }
{
    if point_at(s) {
        let p = digits(&s[1..], PART_MOST);
        Number {
            minus,
            n: n * 1000 + padded(p.n, p.taken),
            taken: k + 1 + p.taken,
        }
    } else {
        Number {
            minus,
            n: n * 1000,
            taken: k,
        }
    }
}

// The number at the head of a text.
fn read(s: &[u8]) -> Number
    requires { 0 < length s.now }
    ensures { result ≡ number_of s.now }
{
    let c = s[0];
    let k = signs(c);
    let whole = digits(&s[k..], WHOLE_MOST);
    let past = k + whole.taken;
    part(&s[past..], c == MINUS, whole.n, past)
}

// The first token from a place on.
pub fn next(s: &[u8], from: usize) -> Token
    requires { from ≤ length s.now }
    ensures { (rest_of s.now result ≡ tokens_of 0 (drop from s.now)) × Within from (length s.now) result }
{
    for i in from..s.len() {
        let c = s[i];
        if LETTERS <= c {
            return Token::Letter(c, i + 1);
        }
        if begins(c) {
            let v = read(&s[i..]);
            return Token::Value(v.minus, v.n, i + v.taken);
        }
    }
    Token::End(s.len())
}
