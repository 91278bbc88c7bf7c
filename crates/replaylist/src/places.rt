// Where the parts of a case are. A place past the end is the end, and the word there is 0.
ghost use Rattle.std.specs.Prelude.{◌≤◌, length};

use hexlist::rows::stored;
use hexlist::words::word;

// A row: where its words begin, and its length as the list has it.
#[derive(Clone, Copy)]
pub struct Row {
    pub base: usize,
    pub code: u32,
}

// The place n words after `at`.
pub fn past(words: &[u32], at: usize, n: usize) -> usize
    ensures { result ≤ length words.now }
{
    at.saturating_add(n).min(words.len())
}

// The place after a row.
pub fn after(words: &[u32], row: Row) -> usize
    ensures { result ≤ length words.now }
{
    past(words, row.base, stored(row.code))
}

// The first row of some: its length is the word k after `head`, and it begins n words after that.
pub fn first(words: &[u32], head: usize, k: usize, n: usize) -> Row
    ensures { result.base ≤ length words.now }
{
    Row {
        base: past(words, head, n),
        code: word(words, head, k),
    }
}

// The row after another.
pub fn follow(words: &[u32], head: usize, k: usize, before: Row) -> Row
    ensures { result.base ≤ length words.now }
{
    Row {
        base: after(words, before),
        code: word(words, head, k),
    }
}
