// Kind 3: counts*, tally*; room.
use super::places::Row;
use super::rooms::{WORDS, room, taken};
use super::rows::Seen;
use super::{places, rows};
use hexlist::words::word;

#[derive(Clone, Copy)]
struct Parts {
    counts: Row,
    tally: Row,
    answer: usize,
    counts_later: Row,
    tally_later: Row,
}

fn parts_at(words: &[u32], at: usize) -> Parts {
    let counts = places::first(words, at, 1, 4);
    let tally = places::follow(words, at, 2, counts);
    let answer = places::after(words, tally);
    let counts_later = places::first(words, answer, 2, 4);
    let tally_later = places::follow(words, answer, 3, counts_later);
    Parts {
        counts,
        tally,
        answer,
        counts_later,
        tally_later,
    }
}

// Whether the stage answers so.
fn right(words: &[u32], at: Parts, room: u32, counts: &mut [u32], tally: &mut [u32]) -> bool {
    let whole = rows::put(words, at.counts, counts) & rows::put(words, at.tally, tally);
    let a = hand_out::hand_out(counts, tally, room);
    whole
        & rows::answers(words, at.answer, a)
        & rows::same(words, at.counts, at.counts_later, counts)
        & rows::same(words, at.tally, at.tally_later, tally)
}

pub(crate) fn case(words: &[u32], at: usize) -> Seen {
    let p = parts_at(words, at);
    let mut counts = room::<u32, WORDS>();
    let mut tally = room::<u32, WORDS>();
    let nc = taken(p.counts, &counts);
    let nt = taken(p.tally, &tally);
    Seen {
        next: places::after(words, p.tally_later),
        equal: right(
            words,
            p,
            word(words, at, 3),
            &mut counts[..nc],
            &mut tally[..nt],
        ),
    }
}
