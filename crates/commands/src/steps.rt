// One command: what it is, what it does, and where the next one stands.
ghost use Rattle.std.specs.Prelude.{◌≡◌, ◌+◌, ◌≤◌, ◌<◌, length};
ghost use Rattle.commands.specs.Numbers.{words_of, fill_words};
ghost use Rattle.commands.specs.Moves.{op_of, fill_move, move_of};
ghost use Rattle.commands.specs.Move.{move_told};

use crate::numbers::{COLOR, COLOR_WORDS, FILL, FILL_WORDS, JUMP, JUMP_WORDS, SOLID, SOLID_WORDS};
use coverage::ground::ground;
use panel::refusals::Refusal;

// What a command's first word asks for.
#[derive(Clone, Copy)]
pub enum Op {
    Fill,
    Solid,
    Color,
    Jump,
    Unknown,
}

// What a command does: FILL has its three words, COLOR its one.
#[derive(Clone, Copy)]
pub enum Act {
    Fill(u32, u32, u32),
    Solid,
    Color(u32),
    Jump,
}

// What the word `tag` asks for. A free function, and no `From`: the callers' proofs cite it by the name of its definition.
#[tactic(auto, unfolding(crate::specs::Moves::op_of))]
pub fn op_of(tag: u32) -> Op
    ensures { result ≡ op_of tag }
{
    match tag {
        FILL => Op::Fill,
        SOLID => Op::Solid,
        COLOR => Op::Color,
        JUMP => Op::Jump,
        _ => Op::Unknown,
    }
}

impl Op {
    // A command's size. An unknown one has its first word alone.
    pub fn words(self) -> usize
        ensures { result ≡ words_of self }
    {
        match self {
            Op::Fill => FILL_WORDS,
            Op::Solid => SOLID_WORDS,
            Op::Color => COLOR_WORDS,
            Op::Jump => JUMP_WORDS,
            Op::Unknown => 1,
        }
    }
}

// A FILL whose words are all there: its segments are asked for as `fill` asks for them.
fn fill_move(words: &[u32], segments: &[f32], at: usize) -> Result<(Act, usize), Refusal>
    requires { at + fill_words ≤ length words.now }
    ensures { move_told result ≡ fill_move words.now segments.now at }
{
    let rule = words[at + 1];
    let first = words[at + 2];
    let backdrop = words[at + 3];
    ground(segments, first, rule / 2)?;
    Ok((Act::Fill(rule, first, backdrop), at + FILL_WORDS))
}

// The command at a place where a word stands: what it does, and where the next one stands.
pub fn move_at(words: &[u32], segments: &[f32], at: usize, op: Op) -> Result<(Act, usize), Refusal>
    requires { at < length words.now }
    ensures { move_told result ≡ move_of op words.now segments.now at }
{
    if words.len() - at < op.words() {
        return Err(Refusal::PastEnd);
    }
    match op {
        Op::Fill => fill_move(words, segments, at),
        Op::Solid => Ok((Act::Solid, at + SOLID_WORDS)),
        Op::Color => Ok((Act::Color(words[at + 1]), at + COLOR_WORDS)),
        Op::Jump => Ok((Act::Jump, words[at + 1] as usize)),
        Op::Unknown => Err(Refusal::Unknown),
    }
}
