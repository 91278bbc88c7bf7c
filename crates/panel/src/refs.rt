// A reference as it is lent: its line, and its second word, which packs its slice number and its step.
ghost use Rattle.std.specs.Prelude.{◌≡◌, ◌+◌, ◌*◌, ◌≤◌, ◌<◌, length};
ghost use Rattle.panel.specs.Limits.{most_count};
ghost use Rattle.panel.specs.Widths.{ref_words, step_range};
ghost use Rattle.panel.specs.Refs.{line_at, packed_at, step_no, slice_no, packed, put_ref};

use super::widths::{REF_WORDS, STEP_RANGE};

// The line that reference k names.
pub fn named_at(refs: &[u32], k: u32) -> u32
    requires { k * ref_words + ref_words ≤ length refs.now }
    ensures { result ≡ line_at refs.now k }
{
    let at = (k as usize) * REF_WORDS;
    let word = refs[at];
    word
}

// Its second word.
pub fn packed_at(refs: &[u32], k: u32) -> u32
    requires { k * ref_words + ref_words ≤ length refs.now }
    ensures { result ≡ packed_at refs.now k }
{
    let at = (k as usize) * REF_WORDS;
    let word = refs[at + 1];
    word
}

pub fn step_of(packed: u32) -> u32
    ensures { result ≡ step_no packed }
{
    packed % STEP_RANGE
}

pub fn slice_of(packed: u32) -> u32
    ensures { result ≡ slice_no packed }
{
    packed / STEP_RANGE
}

pub fn pack(slice: u32, step: u32) -> u32
    requires { (slice < most_count) × (step < step_range) }
    ensures { result ≡ packed slice step }
{
    slice * STEP_RANGE + step
}

// A reference into its place.
pub fn put_ref(refs: &mut [u32], k: u32, line: u32, word: u32)
    requires { ref_words * k + ref_words ≤ length refs.old }
    ensures { refs.new ≡ put_ref k line word refs.old }
{
    let at = REF_WORDS * (k as usize);
    refs[at] = line;
    refs[at + 1] = word;
}
