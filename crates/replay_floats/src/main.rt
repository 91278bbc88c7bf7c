// Replays the list of the Rust's answers on floats, standard input, through float32, and writes how
// many entries were compared and how many were equal. An entry is the helper's number, its operands
// and the answer.
#![tactic(auto)]

ghost use Rattle.std.specs.Prelude.{◌≤◌};

use hexlist::tally::Tally;
use hexlist::words::{Element, word};

// How many operands a helper takes, by its number.
fn operands(helper: u32) -> usize
    ensures { result ≤ 3 }
{
    match helper {
        0..=0x0f => 1,
        0x10..=0x1f => 2,
        _ => 3,
    }
}

// Whether a helper of one operand gives the answer.
fn one_right(helper: u32, w: u32, answer: u32) -> bool {
    let x = f32::of_word(w);
    match helper {
        0x01 => float32::floor(x).is_word(answer),
        0x02 => float32::ceil(x).is_word(answer),
        0x03 => float32::round(x).is_word(answer),
        0x04 => float32::trunc(x).is_word(answer),
        0x05 => float32::abs(x).is_word(answer),
        0x06 => float32::signum(x).is_word(answer),
        0x07 => float32::to_u32(x).is_word(answer),
        0x08 => float32::to_i32(x).is_word(answer),
        0x09 => float32::of_u32(w).is_word(answer),
        0x0a => float32::of_i32(i32::of_word(w)).is_word(answer),
        0x0b => u32::from(float32::is_finite(x)) == answer,
        _ => false,
    }
}

// The same of a helper of two operands.
fn two_right(helper: u32, a: f32, b: f32, answer: u32) -> bool {
    match helper {
        0x10 => float32::min(a, b).is_word(answer),
        0x11 => float32::max(a, b).is_word(answer),
        0x12 => float32::copysign(a, b).is_word(answer),
        _ => false,
    }
}

// Whether the entry at `at` is right.
fn right(words: &[u32], at: usize) -> bool {
    let helper = word(words, at, 0);
    let first = word(words, at, 1);
    let second = word(words, at, 2);
    let third = word(words, at, 3);
    match operands(helper) {
        1 => one_right(helper, first, second),
        2 => two_right(helper, f32::of_word(first), f32::of_word(second), third),
        _ => {
            let clamped = float32::clamp(
                f32::of_word(first),
                f32::of_word(second),
                f32::of_word(third),
            );
            (helper == 0x20) & clamped.is_word(word(words, at, 4))
        }
    }
}

// Every whole entry.
fn replay(words: &[u32]) -> Tally {
    let mut compared = 0;
    let mut equal = 0;
    let mut at = 0;
    // an entry's own size moves the place
    while at < words.len() {
        let size = operands(word(words, at, 0)) + 2;
        if words.len() - at < size {
            break;
        }
        equal += usize::from(right(words, at));
        compared += 1;
        at += size;
    }
    Tally { compared, equal }
}

fn main() {
    let mut words = hexlist::input::room();
    let n = hexlist::input::read(&mut words);
    replay(&words[..n]).tell(b"floats");
}
