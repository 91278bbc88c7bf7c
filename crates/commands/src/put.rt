// One command written as steps reads it: its words, from a place on. Lists are written through these.
ghost use Rattle.std.specs.Prelude.{◌≡◌, ◌+◌, ◌≤◌, length};
ghost use Rattle.std.proofs.lemmas.List.Edits.{sets};
ghost use Rattle.commands.specs.Numbers.{encode, encode_to, fill_words, solid_words, color_words, jump_words};
ghost use Rattle.commands.specs.declared.steps.Act.TheVariants.{Fill, Solid, Color, Jump};

use crate::numbers::{COLOR, FILL, JUMP, SOLID};

// A command's words.
fn put<const N: usize>(words: &mut [u32], at: usize, these: [u32; N])
    requires { at + length these ≤ length words.old }
    ensures { words.new ≡ sets words.old at these.entry }
{
    words[at..at + N].copy_from_slice(&these);
}

pub fn put_fill(words: &mut [u32], at: usize, rule: u32, first: u32, backdrop: u32)
    requires { at + fill_words ≤ length words.old }
    ensures { words.new ≡ sets words.old at (encode (Fill rule first backdrop)) }
{
    put(words, at, [FILL, rule, first, backdrop]);
}

pub fn put_solid(words: &mut [u32], at: usize)
    requires { at + solid_words ≤ length words.old }
    ensures { words.new ≡ sets words.old at (encode Solid) }
{
    put(words, at, [SOLID]);
}

pub fn put_color(words: &mut [u32], at: usize, color: u32)
    requires { at + color_words ≤ length words.old }
    ensures { words.new ≡ sets words.old at (encode (Color color)) }
{
    put(words, at, [COLOR, color]);
}

// A JUMP to the word `to`.
pub fn put_jump(words: &mut [u32], at: usize, to: u32)
    requires { at + jump_words ≤ length words.old }
    ensures { words.new ≡ sets words.old at (encode_to to Jump) }
{
    put(words, at, [JUMP, to]);
}
