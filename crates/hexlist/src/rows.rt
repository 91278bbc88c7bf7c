// A row of words that stands for a slice. A length goes before it: below 2^31 so many words follow;
// 2^31 more than a length says that the words are all the same, and one follows. Where a slice is as
// it was before, the list says so by AS_BEFORE, and no word follows.
ghost use Rattle.std.specs.Prelude.{◌≡◌};
ghost use Rattle.lists.specs.Grid.{mapi};
ghost use Rattle.hexlist.specs.Rows.{length_of, stored_of, word_of, element_as, same_row};

use crate::words::{Element, word};

pub const AS_BEFORE: u32 = 0xffff_ffff;

// How long the slice is.
pub fn length(code: u32) -> usize
    ensures { result ≡ length_of code }
{
    (code % 0x8000_0000) as usize
}

// How many words stand for it.
#[tactic(auto, using(std::proofs::lemmas::Bool::Decides::nat_tests))]
pub fn stored(code: u32) -> usize
    ensures { result ≡ stored_of code }
{
    if code < 0x8000_0000 {
        code as usize
    } else if code < AS_BEFORE {
        1
    } else {
        0
    }
}

// The slice's element k, where its row is at `base`.
#[tactic(auto, using(std::proofs::lemmas::Bool::Decides::nat_tests), unfolding(crate::specs::Rows::word_of))]
pub fn element(words: &[u32], base: usize, code: u32, k: usize) -> u32
    ensures { result ≡ word_of words.now base code k }
{
    word(words, base, if code < 0x8000_0000 { k } else { 0 })
}

// Puts the row into a slice.
pub fn put<T: Element>(words: &[u32], base: usize, code: u32, out: &mut [T])
    ensures { out.new ≡ mapi (element_as T.value_of words.now base code) out.old }
{
    for (i, x) in out.iter_mut().enumerate() {
        *x = T::of_word(element(words, base, code, i));
    }
}

// Whether a slice is what the row says, element for element. Its length is the caller's to compare.
pub fn same<T: Element>(words: &[u32], base: usize, code: u32, found: &[T]) -> bool
    ensures { result ≡ same_row T.is_value (word_of words.now base code) 0 found.now }
{
    for (i, x) in found.iter().enumerate() {
        if !x.is_word(element(words, base, code, i)) {
            return false;
        }
    }
    true
}
