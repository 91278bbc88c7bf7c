// Kind 2: paths, backdrops*.
use super::places::Row;
use super::rooms::{INTS, WORDS, room, taken};
use super::rows::Seen;
use super::{places, rows};

#[derive(Clone, Copy)]
struct Parts {
    paths: Row,
    backdrops: Row,
    answer: usize,
    later: Row,
}

fn parts_at(words: &[u32], at: usize) -> Parts {
    let paths = places::first(words, at, 1, 3);
    let backdrops = places::follow(words, at, 2, paths);
    let answer = places::after(words, backdrops);
    let later = places::first(words, answer, 2, 3);
    Parts {
        paths,
        backdrops,
        answer,
        later,
    }
}

// Whether the stage answers so.
fn right(words: &[u32], at: Parts, paths: &mut [u32], backdrops: &mut [i32]) -> bool {
    let whole = rows::put(words, at.paths, paths) & rows::put(words, at.backdrops, backdrops);
    let a = backdrop::backdrop(paths, backdrops);
    whole
        & rows::answers(words, at.answer, a)
        & rows::same(words, at.backdrops, at.later, backdrops)
}

pub(crate) fn case(words: &[u32], at: usize) -> Seen {
    let p = parts_at(words, at);
    let mut paths = room::<u32, WORDS>();
    let mut backdrops = room::<i32, INTS>();
    let np = taken(p.paths, &paths);
    let nb = taken(p.backdrops, &backdrops);
    Seen {
        next: places::after(words, p.later),
        equal: right(words, p, &mut paths[..np], &mut backdrops[..nb]),
    }
}
