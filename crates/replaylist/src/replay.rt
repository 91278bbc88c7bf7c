// A list, case by case, and what was found.
ghost use Rattle.std.specs.Prelude.{◌≤◌};

use super::rows::Seen;
use hexlist::tally::Tally;
use hexlist::words::word;

// The case at `at`, by its stage's number. Of a stage that isn't here nothing is equal.
fn case(words: &[u32], at: usize) -> Seen {
    match word(words, at, 0) {
        1 => super::case_count::case(words, at),
        2 => super::case_backdrop::case(words, at),
        3 => super::case_hand_out::case(words, at),
        4 => super::case_tile::case(words, at),
        5 => super::case_fill::case(words, at),
        6 => super::case_fine::case(words, at),
        _ => Seen {
            next: words.len(),
            equal: false,
        },
    }
}

// Every case. One that doesn't go on would be the last.
fn replay(words: &[u32]) -> Tally
    ensures { result.equal ≤ result.compared }
{
    let mut compared = 0;
    let mut equal = 0;
    let mut at = 0;
    // each case says where the next one begins
    while at < words.len() {
        let seen = case(words, at);
        if seen.next <= at {
            break;
        }
        equal += usize::from(seen.equal);
        compared += 1;
        at = seen.next;
    }
    Tally { compared, equal }
}

// Replays standard input, and writes under the list's name how many cases were compared and how many
// were equal. What it hands back is what it wrote.
pub fn run(name: &[u8]) -> Tally
    ensures { result.equal ≤ result.compared }
{
    let mut words = hexlist::input::room();
    let n = hexlist::input::read(&mut words);
    let tally = replay(&words[..n]);
    tally.tell(name);
    tally
}
